#![tactic(auto)]
// Tests of the plan's running code against examples worked out from the rules: by hand, or by a model of the rules that shares
// nothing with this code.
#[cfg(test)]
mod edits;
#[cfg(test)]
mod faults;
#[cfg(test)]
mod lengths;
#[cfg(test)]
mod letters;
#[cfg(test)]
mod lists;
#[cfg(test)]
mod loads;
#[cfg(test)]
mod places;
#[cfg(test)]
mod plan_k;
#[cfg(test)]
mod puts;
#[cfg(test)]
mod refused_edits;
#[cfg(test)]
mod samples;
#[cfg(test)]
mod telling;
#[cfg(test)]
mod trials;
#[cfg(test)]
mod trying;
