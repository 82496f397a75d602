// Putting a block in, and what an absent block keeps.
use crate::places::Place;
use crate::places::Place::*;
use crate::samples::{K, SIDES_OF_K, sample, sample_k};
use crate::telling::{check_sides, check_tree};
use crate::trying::begun;
use plan::Settled;
use rules::edits::Edit::*;
use rules::edits::Side;
use std::alloc::Global;
use std::process::Abort;
use std::test::Fail;

// K without the block is this tree; putting it in again under another gives a tree for each.
fn check_puts(
    rt: &impl Abort,
    heap: Global,
    block: u16,
    without: &[Place],
    side: Side,
    cases: &[(u16, [Place; 5])],
) -> Result<(), Fail> {
    let mut plan = begun(rt, sample_k(rt, heap)?, TakeOut(block), without)?.keep();
    for (j, after) in cases.iter() {
        plan = begun(rt, plan, PutIn(block, *j, side), after)?.undo();
        check_tree(rt, &plan, without)?;
    }
    Ok(())
}

#[test]
fn put_in_on_the_left(rt: HostRuntime) -> Result<(), Fail> {
    check_puts(
        &rt,
        rt.alloc(),
        2,
        &[Left(1), Both(3, 4), Out, Leaf, Leaf],
        Side::Left,
        &[
            // over a former child, at the root and below it; under leaves
            (0, [Left(2), Both(3, 4), Left(1), Leaf, Leaf]),
            (1, [Left(1), Both(2, 4), Left(3), Leaf, Leaf]),
            (3, [Left(1), Both(3, 4), Leaf, Left(2), Leaf]),
            (4, [Left(1), Both(3, 4), Leaf, Leaf, Left(2)]),
        ],
    )
}

#[test]
fn put_in_on_the_right(rt: HostRuntime) -> Result<(), Fail> {
    check_puts(
        &rt,
        rt.alloc(),
        1,
        &[Both(4, 2), Out, Leaf, Leaf, Left(3)],
        Side::Right,
        &[
            // over a former child, beside a left child, and under leaves
            (0, [Both(4, 1), Right(2), Leaf, Leaf, Left(3)]),
            (4, [Both(4, 2), Leaf, Leaf, Leaf, Both(3, 1)]),
            (2, [Both(4, 2), Leaf, Right(1), Leaf, Left(3)]),
            (3, [Both(4, 2), Leaf, Leaf, Right(1), Left(3)]),
        ],
    )
}

fn emptied(rt: &impl Abort, heap: Global) -> Result<Settled, Fail> {
    let plan = sample(rt, heap, b'F', &[Left(1), Leaf])?;
    let plan = begun(rt, plan, TakeOut(0), &[Out, Leaf])?.keep();
    Ok(begun(rt, plan, TakeOut(1), &[Out, Out])?.keep())
}

// In an empty tree the block becomes the root, and the other number is not looked at.
#[test]
fn put_in_an_empty_tree(rt: HostRuntime) -> Result<(), Fail> {
    let mut plan = emptied(&rt, rt.alloc())?;
    for j in [0, 1, 2, 9999, 65535] {
        plan = begun(&rt, plan, PutIn(1, j, Side::Left), &[Out, Leaf])?.undo();
        plan = begun(&rt, plan, PutIn(0, j, Side::Right), &[Leaf, Out])?.undo();
        check_tree(&rt, &plan, &[Out, Out])?;
    }
    Ok(())
}

// The last block out, and two in again.
#[test]
fn put_in_again(rt: HostRuntime) -> Result<(), Fail> {
    let plan = begun(
        &rt,
        emptied(&rt, rt.alloc())?,
        PutIn(1, 0, Side::Right),
        &[Out, Leaf],
    )?
    .keep();
    let plan = begun(&rt, plan, PutIn(0, 1, Side::Right), &[Leaf, Right(0)])?.keep();
    check_tree(&rt, &plan, &[Leaf, Right(0)])?;
    assert_eq!(rt; plan.kept(), 4);
    Ok(())
}

// A turn exchanges the sides of its block alone, and leaves the tree as it is.
#[test]
fn turn(rt: HostRuntime) -> Result<(), Fail> {
    let cases = [
        (0, [(3, 4), (3, 2), (2, 4), (2, 2), (5, 1)]),
        (4, [(3, 4), (3, 2), (2, 4), (2, 2), (1, 5)]),
        (0, [(4, 3), (3, 2), (2, 4), (2, 2), (1, 5)]),
        (3, [(4, 3), (3, 2), (2, 4), (2, 2), (1, 5)]),
    ];
    let mut plan = sample_k(&rt, rt.alloc())?;
    for (block, sides) in cases {
        plan = begun(&rt, plan, Turn(block), &K)?.keep();
        check_sides(&rt, &plan, &sides)?;
    }
    Ok(())
}

#[test]
fn turn_undone(rt: HostRuntime) -> Result<(), Fail> {
    let plan = begun(&rt, sample_k(&rt, rt.alloc())?, Turn(0), &K)?.undo();
    check_sides(&rt, &plan, &SIDES_OF_K)
}

// A block that was turned and taken out is still turned when it is put in again.
#[test]
fn absent_block_keeps_its_size(rt: HostRuntime) -> Result<(), Fail> {
    let without = [Left(1), Both(3, 4), Out, Leaf, Leaf];
    let plan = sample_k(&rt, rt.alloc())?;
    let plan = begun(&rt, plan, Turn(2), &K)?.keep();
    let plan = begun(&rt, plan, TakeOut(2), &without)?.keep();
    let plan = begun(&rt, plan, PutIn(2, 0, Side::Right), &K)?.keep();
    check_sides(&rt, &plan, &[(4, 3), (3, 2), (4, 2), (2, 2), (5, 1)])?;
    assert_eq!(rt; plan.kept(), 3);
    Ok(())
}
