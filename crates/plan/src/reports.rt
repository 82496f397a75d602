// What a plan tells of a block.
use rules::blocks::{Children, Letter, Size};

#[derive(Clone, Copy, PartialEq, Eq, Debug)]
pub struct Report {
    pub size: Size,
    pub children: Children,
    pub letter: Letter,
    // whether the block keeps its letter
    pub kept: bool,
}
