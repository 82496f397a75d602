#![tactic(auto)]
// The reader of .blocks texts.
mod blocks;
mod body;
mod counts;
mod heads;
mod laws;
mod lines;
mod read;
mod samples;

pub use laws::accepted_texts;
pub use read::read_blocks;
pub use samples::sample_readings;
