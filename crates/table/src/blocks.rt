// A row of the block table.
use rules::blocks::{Children, Letter, Size};

#[derive(Clone, Copy)]
pub struct Block {
    pub size: Size,
    pub letter: Letter,
    pub children: Children,
    // A mark beside the children, and no Option around them: a walk by links comes to present blocks alone, and would test a
    // case that never comes.
    pub present: bool,
}
