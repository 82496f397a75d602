// The five edits of a plan.
ghost use Rattle.std.specs.Prelude.{◌≡◌};
ghost use Rattle.rules.specs.Sides.{opposite};

#[derive(Clone, Copy, PartialEq, Eq, Debug)]
pub enum Side {
    Left,
    Right,
}

impl Side {
    pub fn opposite(self) -> Side
        ensures { result ≡ opposite self }
    {
        match self {
            Side::Left => Side::Right,
            Side::Right => Side::Left,
        }
    }
}

#[derive(Clone, Copy, PartialEq, Eq, Debug)]
pub enum Edit {
    // exchanges the block's width and height
    Turn(u16),
    // exchanges the places of two blocks in the tree
    Swap(u16, u16),
    // takes the block out of the tree
    TakeOut(u16),
    // puts the first block in as a child of the second, on that side
    PutIn(u16, u16, Side),
    // takes the first block out and puts it in under the second
    Move(u16, u16, Side),
}
