// Loads that are allowed: of no blocks, of one, and of 512.
use crate::lists::Lists;
use crate::places::Place;
use crate::places::Place::*;
use crate::samples::sample_k;
use crate::telling::{check_refused, check_sides, check_tree};
use plan::Settled;
use rules::blocks::NONE;
use rules::edits::Edit::*;
use std::alloc::{AllocError, Global};
use std::process::Abort;
use std::test::Fail;

#[test]
fn no_blocks(rt: HostRuntime) -> Result<(), Fail> {
    let mut plan = sample_k(&rt, rt.alloc())?;
    let lists = Lists::new(rt.alloc(), NONE);
    assert_eq!(rt; lists.load(&mut plan, &mut []), Ok(0));
    check_tree(&rt, &plan, &[])?;
    assert_eq!(rt; plan.kept(), 0);
    Ok(())
}

// One block of this size, with walk memory to spare.
fn check_square(rt: &impl Abort, heap: Global, side: u32) -> Result<(), Fail> {
    let mut lists = Lists::new(heap, 0);
    lists.push(side, side, b'F', Leaf)?;
    let mut plan = Settled::new(heap)?;
    assert_eq!(rt; lists.load(&mut plan, &mut [0; 3]), Ok(1));
    check_sides(rt, &plan, &[(side, side)])
}

#[test]
fn smallest_block(rt: HostRuntime) -> Result<(), Fail> {
    check_square(&rt, rt.alloc(), 1)
}

#[test]
fn largest_block(rt: HostRuntime) -> Result<(), Fail> {
    check_square(&rt, rt.alloc(), 131072)
}

// The root may be any block, and children may have lower numbers.
#[test]
fn third_block_as_root(rt: HostRuntime) -> Result<(), Fail> {
    let tree = [Leaf, Right(0), Both(1, 3), Leaf];
    let lists = Lists::of_tree(rt.alloc(), 2, b'F', &tree)?;
    let mut plan = Settled::new(rt.alloc())?;
    assert_eq!(rt; lists.load(&mut plan, &mut [0; 4]), Ok(4));
    check_tree(&rt, &plan, &tree)
}

// The place of a block in a chain of 512 left children.
fn in_chain(block: u16) -> Place {
    if block < 511 { Left(block + 1) } else { Leaf }
}

// The place of a block in the complete tree of 512, where 2k + 1 and 2k + 2 are the children of k.
fn in_complete(block: u16) -> Place {
    if block < 255 {
        Both(2 * block + 1, 2 * block + 2)
    } else if block == 255 {
        Left(511)
    } else {
        Leaf
    }
}

pub fn chain(heap: Global) -> Result<Lists, AllocError> {
    let mut lists = Lists::new(heap, 0);
    for block in 0..512u16 {
        lists.push(2, 3, b'F', in_chain(block))?;
    }
    Ok(lists)
}

fn complete(heap: Global) -> Result<Lists, AllocError> {
    let mut lists = Lists::new(heap, 0);
    for block in 0..512u16 {
        lists.push(2, 3, b'F', in_complete(block))?;
    }
    Ok(lists)
}

fn load_512(rt: &impl Abort, heap: Global, lists: &Lists) -> Result<Settled, Fail> {
    let mut plan = Settled::new(heap)?;
    assert_eq!(rt; lists.load(&mut plan, &mut [0; 512]), Ok(512));
    Ok(plan)
}

fn check_children(rt: &impl Abort, plan: &Settled, block: u16, place: Place) -> Result<(), Fail> {
    assert_eq!(rt;
        plan.report(block)?.children,
        place.children(),
        "block {block}"
    );
    Ok(())
}

#[test]
fn chain_of_512(rt: HostRuntime) -> Result<(), Fail> {
    let plan = load_512(&rt, rt.alloc(), &chain(rt.alloc())?)?;
    for block in 0..512u16 {
        check_children(&rt, &plan, block, in_chain(block))?;
    }
    check_refused(&rt, plan.report(512), 9, 512)
}

#[test]
fn complete_tree_of_512(rt: HostRuntime) -> Result<(), Fail> {
    let plan = load_512(&rt, rt.alloc(), &complete(rt.alloc())?)?;
    for block in 0..512u16 {
        check_children(&rt, &plan, block, in_complete(block))?;
    }
    check_refused(&rt, plan.report(512), 9, 512)
}

#[test]
fn out_of_chain_of_512(rt: HostRuntime) -> Result<(), Fail> {
    let plan = load_512(&rt, rt.alloc(), &chain(rt.alloc())?)?;
    let plan = plan.begin(TakeOut(300)).keep();
    check_children(&rt, &plan, 299, Left(301))?;
    check_refused(&rt, plan.report(300), 21, 300)
}

// Each block of the rightmost branch moves up a level, and takes over the left child of the one above.
#[test]
fn root_out_of_512(rt: HostRuntime) -> Result<(), Fail> {
    let plan = load_512(&rt, rt.alloc(), &complete(rt.alloc())?)?;
    let plan = plan.begin(TakeOut(0)).keep();
    let branch = [
        (1, Both(3, 4)),
        (2, Both(1, 6)),
        (6, Both(5, 14)),
        (254, Both(253, 510)),
        (510, Left(509)),
    ];
    for (block, place) in branch {
        check_children(&rt, &plan, block, place)?;
    }
    check_refused(&rt, plan.report(0), 21, 0)
}
