#![tactic(auto)]
// The tree in which blocks 2k + 1 and 2k + 2 are the children of block k.
mod links;
mod load;

pub use load::load_heap;
