#![tactic(auto)]
// Tests of packing: the running code, over each kind of skyline, against cases worked by hand and against a grid of cells that shares
// nothing with the packer.
#[cfg(test)]
mod chains;
#[cfg(test)]
mod grids;
#[cfg(test)]
mod lists;
#[cfg(test)]
mod tasks;
#[cfg(test)]
mod trees;
#[cfg(test)]
mod worked;
