#![tactic(auto)]
// The tests of a load.
mod faults;
mod links;
mod load;
mod reach;

pub use load::load_refusal;
