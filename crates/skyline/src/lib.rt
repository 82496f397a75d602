#![tactic(auto)]
// Skylines: the heights of columns, behind one trait, the tests of its calls, and the search for the highest top over a span.
pub mod checks;
pub mod skylines;
pub mod spans;
pub mod worked;
