#![tactic(auto)]
// Texts cut into lines and lines into words, and what words say.
pub mod arguments;
pub mod split;
pub mod word;
