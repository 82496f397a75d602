#![tactic(auto)]
// What a line of a script says.
pub mod line;
mod read;
mod skies;

pub use read::{read_line, readings};
