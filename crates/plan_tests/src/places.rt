// Trees, written as the place of each block.
use rules::blocks::{Children, NONE};

#[derive(Clone, Copy, Debug)]
pub enum Place {
    // not in the tree
    Out,
    // in the tree without children
    Leaf,
    // above a left child, above a right child, above both
    Left(u16),
    Right(u16),
    Both(u16, u16),
}

impl Place {
    pub fn children(self) -> Children {
        let (left, right) = match self {
            Place::Out | Place::Leaf => (NONE, NONE),
            Place::Left(left) => (left, NONE),
            Place::Right(right) => (NONE, right),
            Place::Both(left, right) => (left, right),
        };
        Children { left, right }
    }
}
