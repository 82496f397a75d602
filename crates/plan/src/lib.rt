#![tactic(auto)]
// A plan of blocks: load, report, the five edits, and trials.
mod checks;
mod edits;
mod plans;
mod reads;
mod reports;
mod rows;
mod states;
mod tells;
mod trials;

pub use plans::Plan;
pub use reports::Report;
pub use states::{Settled, Tried};
