#![tactic(auto)]
// A list of calls on a plan, performed from a new plan on, and then a packing.
pub mod call;
pub mod desk;
mod performing;
mod tells;
mod turns;

pub use performing::pack_after;
pub use tells::lists_tell;
