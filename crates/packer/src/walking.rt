// The walk over a plan's tree: a block, its left subtree from its right edge on, its right subtree from its left edge on.
ghost use Rattle.stack.specs.Stacked.{held, room};
ghost use Rattle.packer.specs.Walks.{Underway};

use crate::spots::Spot;
use stack::stack::Stack;
use table::blocks::Block;

mod ops;

// The present blocks that are still to come, in depth-first order: those of the subtrees whose roots are on the stack.
#[derive(Drop)]
pub(crate) struct Walk<'a> {
    blocks: &'a [Block],
    stack: Stack<'a, Spot>,
    ghost underway: { Underway blocks.now (held stack) (room stack) },
}
