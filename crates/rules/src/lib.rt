#![tactic(auto)]
// The types that every layer shares. What they mean stands in specs/.
pub mod blocks;
pub mod edits;
pub mod placements;
pub mod refusals;
mod texts;
