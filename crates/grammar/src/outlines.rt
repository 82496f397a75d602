// The outline of a block.

#[derive(Clone, Copy, PartialEq, Eq, Debug)]
pub struct Point {
    pub x: u32,
    pub y: u32,
}

// The four vertices of a block line, in their order.
#[derive(Clone, Copy, PartialEq, Eq, Debug)]
pub struct Corners {
    pub first: Point,
    pub second: Point,
    pub third: Point,
    pub fourth: Point,
}

// What a block line says: the block's name, and its vertices.
#[derive(Clone, Copy)]
pub struct Outline<'a> {
    pub name: &'a [u8],
    pub corners: Corners,
}

// What a line of the body says.
#[derive(Clone, Copy)]
pub enum Item<'a> {
    Terminal,
    Block(Outline<'a>),
}
