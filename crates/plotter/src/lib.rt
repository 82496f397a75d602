#![tactic(auto)]
// From the text of blocks to the text of their places.
mod blocks;
mod packs;
mod plotting;
mod samples;

pub use plotting::plot;
pub use samples::sample_plots;
