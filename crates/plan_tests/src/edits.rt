// What each edit does to the tree.
use crate::places::Place;
use crate::places::Place::*;
use crate::samples::{K, sample};
use crate::telling::check_tree;
use crate::trying::begun;
use rules::edits::Edit::*;
use rules::edits::{Edit, Side};
use std::alloc::Global;
use std::process::Abort;
use std::test::Fail;

// The edit gives the tree, in the trial and once it is kept; undoing it gives the tree from before.
fn check_edit(
    rt: &impl Abort,
    heap: Global,
    before: &[Place],
    edit: Edit,
    after: &[Place],
) -> Result<(), Fail> {
    let plan = sample(rt, heap, b'F', before)?;
    let plan = begun(rt, plan, edit, after)?.undo();
    check_tree(rt, &plan, before)?;
    assert_eq!(rt; plan.kept(), 0, "{edit:?}");
    let plan = begun(rt, plan, edit, after)?.keep();
    check_tree(rt, &plan, after)?;
    assert_eq!(rt; plan.kept(), 1, "{edit:?}");
    Ok(())
}

// Edits of K, each with the tree that it gives.
fn check_edits(rt: &impl Abort, heap: Global, cases: &[(Edit, [Place; 5])]) -> Result<(), Fail> {
    for (edit, after) in cases.iter() {
        check_edit(rt, heap, &K, *edit, after)?;
    }
    Ok(())
}

#[test]
fn take_out(rt: HostRuntime) -> Result<(), Fail> {
    check_edits(
        &rt,
        rt.alloc(),
        &[
            (TakeOut(0), [Out, Both(3, 4), Left(1), Leaf, Leaf]),
            (TakeOut(1), [Both(4, 2), Out, Leaf, Leaf, Left(3)]),
            (TakeOut(2), [Left(1), Both(3, 4), Out, Leaf, Leaf]),
            (TakeOut(3), [Both(1, 2), Right(4), Leaf, Out, Leaf]),
            (TakeOut(4), [Both(1, 2), Left(3), Leaf, Leaf, Out]),
        ],
    )
}

// A block with two children above a right child with two: each right child moves up a level.
#[test]
fn take_out_above_two_levels(rt: HostRuntime) -> Result<(), Fail> {
    let before = [Both(1, 2), Both(3, 4), Both(5, 6), Leaf, Leaf, Leaf, Leaf];
    let without_0 = [Out, Both(3, 4), Both(1, 6), Leaf, Leaf, Leaf, Left(5)];
    let without_2 = [Both(1, 6), Both(3, 4), Out, Leaf, Leaf, Leaf, Left(5)];
    check_edit(&rt, rt.alloc(), &before, TakeOut(0), &without_0)?;
    check_edit(&rt, rt.alloc(), &before, TakeOut(2), &without_2)
}

#[test]
fn swap(rt: HostRuntime) -> Result<(), Fail> {
    check_edits(
        &rt,
        rt.alloc(),
        &[
            // a parent with its left child, with its right child, both ways round
            (Swap(0, 1), [Both(3, 4), Both(0, 2), Leaf, Leaf, Leaf]),
            (Swap(1, 0), [Both(3, 4), Both(0, 2), Leaf, Leaf, Leaf]),
            (Swap(0, 2), [Leaf, Both(3, 4), Both(1, 0), Leaf, Leaf]),
            (Swap(2, 0), [Leaf, Both(3, 4), Both(1, 0), Leaf, Leaf]),
            (Swap(1, 3), [Both(3, 2), Leaf, Leaf, Both(1, 4), Leaf]),
            (Swap(4, 1), [Both(4, 2), Leaf, Leaf, Leaf, Both(3, 1)]),
            // the root with a leaf, two leaves, two children of one parent
            (Swap(0, 4), [Leaf, Both(3, 0), Leaf, Leaf, Both(1, 2)]),
            (Swap(2, 3), [Both(1, 3), Both(2, 4), Leaf, Leaf, Leaf]),
            (Swap(3, 4), [Both(1, 2), Both(4, 3), Leaf, Leaf, Leaf]),
            (Swap(1, 2), [Both(2, 1), Leaf, Both(3, 4), Leaf, Leaf]),
        ],
    )
}

// Moves in K: the block, the one to stand under, and the tree.
fn check_moves(
    rt: &impl Abort,
    heap: Global,
    side: Side,
    cases: &[(u16, u16, [Place; 5])],
) -> Result<(), Fail> {
    for (i, j, after) in cases.iter() {
        let edit = Move(*i, *j, side);
        check_edit(rt, heap, &K, edit, after)?;
    }
    Ok(())
}

#[test]
fn move_to_the_left(rt: HostRuntime) -> Result<(), Fail> {
    check_moves(
        &rt,
        rt.alloc(),
        Side::Left,
        &[
            // a parent under its child
            (0, 1, [Left(3), Both(0, 4), Left(1), Leaf, Leaf]),
            (0, 2, [Left(1), Both(3, 4), Left(0), Leaf, Leaf]),
            (1, 3, [Both(4, 2), Leaf, Leaf, Left(1), Left(3)]),
            (1, 4, [Both(4, 2), Left(3), Leaf, Leaf, Left(1)]),
            // a child under its parent
            (1, 0, [Both(1, 2), Left(4), Leaf, Leaf, Left(3)]),
            (2, 0, [Left(2), Both(3, 4), Left(1), Leaf, Leaf]),
            (3, 1, [Both(1, 2), Both(3, 4), Leaf, Leaf, Leaf]),
            (4, 1, [Both(1, 2), Left(4), Leaf, Leaf, Left(3)]),
            // others
            (0, 3, [Leaf, Both(3, 4), Left(1), Left(0), Leaf]),
            (3, 0, [Both(3, 2), Right(4), Leaf, Left(1), Leaf]),
            (1, 2, [Both(4, 2), Leaf, Left(1), Leaf, Left(3)]),
            (2, 4, [Left(1), Both(3, 4), Leaf, Leaf, Left(2)]),
        ],
    )
}

#[test]
fn move_to_the_right(rt: HostRuntime) -> Result<(), Fail> {
    check_moves(
        &rt,
        rt.alloc(),
        Side::Right,
        &[
            // a parent under its child
            (0, 1, [Right(4), Both(3, 0), Left(1), Leaf, Leaf]),
            (0, 2, [Leaf, Both(3, 4), Both(1, 0), Leaf, Leaf]),
            (1, 3, [Both(4, 2), Leaf, Leaf, Right(1), Left(3)]),
            (1, 4, [Both(4, 2), Leaf, Leaf, Leaf, Both(3, 1)]),
            // a child under its parent
            (1, 0, [Both(4, 1), Right(2), Leaf, Leaf, Left(3)]),
            (2, 0, [Both(1, 2), Both(3, 4), Leaf, Leaf, Leaf]),
            (3, 1, [Both(1, 2), Right(3), Leaf, Right(4), Leaf]),
            (4, 1, [Both(1, 2), Both(3, 4), Leaf, Leaf, Leaf]),
            // others
            (0, 4, [Leaf, Both(3, 4), Left(1), Leaf, Right(0)]),
            (3, 0, [Both(1, 3), Right(4), Leaf, Right(2), Leaf]),
            (2, 1, [Left(1), Both(3, 2), Right(4), Leaf, Leaf]),
            (4, 2, [Both(1, 2), Left(3), Right(4), Leaf, Leaf]),
        ],
    )
}
