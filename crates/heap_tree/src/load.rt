// Loading blocks as this tree.
ghost use Rattle.std.specs.Prelude.{◌≡◌};
ghost use Rattle.rules.specs.Loads.{load_refusal};
ghost use Rattle.heap_tree.specs.Heap.{heap_given, heap_refusal, HeapLoad};

use crate::links::{child_pairs, root_link};
use plan::Settled;
use rules::blocks::{Lists, MOST_BLOCKS, Size};
use rules::refusals::Refusal;

// Loads blocks of these sizes, all free, with block 0 as the root and blocks 2k + 1 and 2k + 2, where they exist, as the left and
// the right child of block k. Only 1 and 3 can refuse it: the links always pass their tests.
#[tactic(auto, using(crate::proofs::Passing::only_sizes))]
pub fn load_heap(plan: &mut Settled, sizes: &[Size]) -> Result<usize, Refusal>
    ensures load { HeapLoad sizes.now plan.old plan.new result }
    ensures tests { load_refusal (heap_given sizes.now) ≡ heap_refusal sizes.now }
{
    let blocks = sizes.len();
    if blocks > MOST_BLOCKS {
        return Err(Refusal::TooManyBlocks(0));
    }
    let letters = [b'F'; MOST_BLOCKS];
    let children = child_pairs(blocks as u16);
    let lists = Lists {
        sizes,
        letters: &letters[..blocks],
        children: &children[..blocks],
        root: root_link(blocks as u16),
    };
    plan.load(lists, &mut [0; MOST_BLOCKS])
}
