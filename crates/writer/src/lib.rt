#![tactic(auto)]
// The .pl text of placed blocks, and the line of a refusal, written into the caller's bytes.
mod checks;
mod lines;
mod pen;
mod placements;
mod refusals;
mod samples;
mod sheet;

pub use placements::write_placements;
pub use refusals::write_refusal;
pub use samples::sample_writings;
