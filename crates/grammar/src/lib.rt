#![tactic(auto)]
// The lines of a .blocks text, and what they say.
mod first_words;
mod forms;
pub mod laws;
pub mod lines;
pub mod outlines;
pub mod said;
mod split;

pub use split::indent_of;
