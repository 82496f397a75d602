#![tactic(auto)]
// Tests of the three skylines' running code. The answers in the tables are worked out by hand from the rules; beside each skyline
// stands a plain array that the test paints itself, and shares nothing with the skylines' code.
#[cfg(test)]
mod calls;
#[cfg(test)]
mod kinds;
#[cfg(test)]
mod making;
#[cfg(test)]
mod painting;
#[cfg(test)]
mod random;
#[cfg(test)]
mod refusals;
#[cfg(test)]
mod spans;
