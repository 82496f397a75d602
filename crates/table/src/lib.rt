#![tactic(auto)]
// The block table: its links, and what the edits of a tree do to them.
pub mod blocks;
mod branches;
mod edits;
mod memory;
mod puts;
mod renames;
mod swaps;
mod tables;
mod takes;

pub use branches::is_letter_kept;
pub use puts::put_in;
pub use swaps::swap_places;
pub use tables::Table;
pub use takes::take_out;
