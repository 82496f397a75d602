// The blocks that were found in a text.
ghost use Rattle.std.specs.Prelude.{◌≡◌, ◌+◌, ◌≤◌, length};
ghost use Rattle.stack.specs.Stacked.{room};

mod finding;

use rules::blocks::Size;
use stack::stack::Stack;

// A block's name, where it begins in the text, and the block's size.
#[derive(Clone, Copy)]
pub(crate) struct Found<'a> {
    name: &'a [u8],
    start: u32,
    size: Size,
    ghost near: { start + length name.now ≤ 65536 },
}

// The blocks, in memory for as many as a plan has.
#[derive(Drop)]
pub(crate) struct Blocks<'a, 'b> {
    found: Stack<'b, Found<'a>>,
    ghost room: { room found ≡ 512 },
}
