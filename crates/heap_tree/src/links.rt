// The links of the tree.
ghost use Rattle.std.specs.Prelude.{◌≡◌, ◌<◌, map};
ghost use Rattle.std.specs.List.{range_with_len};
ghost use Rattle.heap_tree.specs.Heap.{child_link, child_pair};

use rules::blocks::{Children, MOST_BLOCKS, NONE};
use std::array;

// The number i if there is such a block, else none.
fn child_link(i: u16, blocks: u16) -> u16
    ensures { result ≡ child_link blocks i }
{
    if i < blocks { i } else { NONE }
}

// The root: block 0, none where there is no block.
pub(crate) fn root_link(blocks: u16) -> u16
    ensures { result ≡ child_link blocks 0 }
{
    child_link(0, blocks)
}

fn child_pair(k: u16, blocks: u16) -> Children
    requires { k < 512 }
    ensures { result ≡ child_pair blocks k }
{
    let (left, right) = (2 * k + 1, 2 * k + 2);
    Children {
        left: child_link(left, blocks),
        right: child_link(right, blocks),
    }
}

// The child pairs of so many blocks at the front, and behind them no children.
pub(crate) fn child_pairs(blocks: u16) -> [Children; MOST_BLOCKS]
    ensures { result ≡ map (child_pair blocks) (range_with_len 0 512) }
{
    array::from_fn(|k| child_pair(k as u16, blocks))
}
