// The records of a walk over a tree, and what a packing answers.
use rules::blocks::Size;

// A block with its left edge.
#[derive(Clone, Copy, Default)]
pub struct Spot {
    pub block: u16,
    pub left: u32,
}

// A block where a walk comes to it: with its left edge and its size.
#[derive(Clone, Copy)]
pub(crate) struct Visit {
    pub block: u16,
    pub left: u32,
    pub size: Size,
}

// A plan's width, which is its reach, and its height.
#[derive(Clone, Copy, PartialEq, Eq, Debug)]
pub struct Extent {
    pub width: u32,
    pub height: u32,
}
