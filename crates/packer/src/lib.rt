#![tactic(auto)]
// Packing: where each present block of a plan comes to stand, over any skyline.
mod packing;
mod placing;
mod spots;
mod tells;
mod walking;

pub use packing::pack;
pub use spots::{Extent, Spot};
pub use tells::pack_tells;
