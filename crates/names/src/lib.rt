#![tactic(auto)]
// The names of blocks, and where a text has them.
pub mod entries;
mod names;

pub use names::{is_name, name_of};
