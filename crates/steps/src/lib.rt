#![tactic(auto)]
// A skyline over lent memory that holds each run of columns of equal height, in order.
mod runs;
pub mod steps;
