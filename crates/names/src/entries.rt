// What a text says of a block.
use rules::blocks::Size;

// The most bytes that a text of blocks has.
pub const LONGEST_TEXT: usize = 65_536;

// Where the block's name begins in the text, how many bytes it has, and the block's size.
#[derive(Clone, Copy, PartialEq, Eq, Debug, Default)]
pub struct Entry {
    pub start: u32,
    pub len: u32,
    pub size: Size,
}
