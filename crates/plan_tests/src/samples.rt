// Sample plans.
use crate::lists::Lists;
use crate::places::Place;
use crate::places::Place::*;
use plan::Settled;
use rules::blocks::Size;
use rules::edits::Edit::*;
use std::alloc::Global;
use std::process::Abort;
use std::test::Fail;

// The plan K: five blocks in a complete tree, with no letters.
pub const K: [Place; 5] = [Both(1, 2), Both(3, 4), Leaf, Leaf, Leaf];

pub const SIDES_OF_K: [(u32, u32); 5] = [(4, 3), (3, 2), (2, 4), (2, 2), (5, 1)];

// A plan of this tree with root 0, each block with this letter.
pub fn sample(rt: &impl Abort, heap: Global, letter: u8, tree: &[Place]) -> Result<Settled, Fail> {
    let lists = Lists::of_tree(heap, 0, letter, tree)?;
    let mut plan = Settled::new(heap)?;
    assert_eq!(rt; lists.load(&mut plan, &mut [0; 16]), Ok(tree.len()));
    Ok(plan)
}

pub fn sample_k(rt: &impl Abort, heap: Global) -> Result<Settled, Fail> {
    let mut lists = Lists::of_tree(heap, 0, b'F', &K)?;
    lists.sizes.clear();
    for (width, height) in SIDES_OF_K {
        lists.sizes.push(Size { width, height })?;
    }
    let mut plan = Settled::new(heap)?;
    assert_eq!(rt; lists.load(&mut plan, &mut [0; 5]), Ok(5));
    Ok(plan)
}

// K after two swaps that bring it back, so that its count is 2.
pub fn counted_k(rt: &impl Abort, heap: Global) -> Result<Settled, Fail> {
    let plan = sample_k(rt, heap)?.begin(Swap(1, 2)).keep();
    Ok(plan.begin(Swap(1, 2)).keep())
}
