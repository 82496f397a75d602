// The refusals of edits and reports, and the order of their tests.
use crate::places::Place;
use crate::places::Place::*;
use crate::samples::sample_k;
use crate::telling::{check_refused, check_tree};
use crate::trying::{begun, begun_empty};
use plan::Settled;
use rules::edits::Edit::*;
use rules::edits::{Edit, Side};
use std::alloc::Global;
use std::process::Abort;
use std::test::Fail;

// K without 2 and 3.
const REST: [Place; 5] = [Left(1), Right(4), Out, Out, Leaf];

fn rest(rt: &impl Abort, heap: Global) -> Result<Settled, Fail> {
    let plan = begun(
        rt,
        sample_k(rt, heap)?,
        TakeOut(2),
        &[Left(1), Both(3, 4), Out, Leaf, Leaf],
    )?
    .keep();
    Ok(begun(rt, plan, TakeOut(3), &REST)?.keep())
}

// Each edit is refused with this number and place, and its trial is empty.
fn check_refusals(rt: &impl Abort, heap: Global, cases: &[(Edit, u8, u32)]) -> Result<(), Fail> {
    let mut plan = rest(rt, heap)?;
    for (edit, number, place) in cases.iter() {
        plan = begun_empty(rt, plan, *edit, *number, *place, &REST)?.undo();
        check_tree(rt, &plan, &REST)?;
    }
    assert_eq!(rt; plan.kept(), 2);
    Ok(())
}

#[test]
fn turn_and_take_out(rt: HostRuntime) -> Result<(), Fail> {
    check_refusals(
        &rt,
        rt.alloc(),
        &[
            (Turn(5), 9, 5),
            (Turn(65535), 9, 65535),
            (Turn(2), 21, 2),
            (TakeOut(5), 9, 5),
            (TakeOut(9999), 9, 9999),
            (TakeOut(3), 21, 3),
        ],
    )
}

#[test]
fn swap(rt: HostRuntime) -> Result<(), Fail> {
    check_refusals(
        &rt,
        rt.alloc(),
        &[
            (Swap(5, 0), 9, 5),
            (Swap(0, 5), 9, 5),
            (Swap(1, 1), 10, 1),
            (Swap(2, 0), 21, 2),
            (Swap(0, 3), 21, 3),
            // the first test wins: 9 for the first, 9 for the second, 10, 21 for the first
            (Swap(6, 5), 9, 6),
            (Swap(5, 6), 9, 5),
            (Swap(7, 7), 9, 7),
            (Swap(2, 7), 9, 7),
            (Swap(2, 2), 10, 2),
            (Swap(3, 2), 21, 3),
        ],
    )
}

#[test]
fn move_under(rt: HostRuntime) -> Result<(), Fail> {
    check_refusals(
        &rt,
        rt.alloc(),
        &[
            (Move(5, 0, Side::Left), 9, 5),
            (Move(0, 5, Side::Right), 9, 5),
            (Move(1, 1, Side::Left), 10, 1),
            (Move(2, 0, Side::Right), 21, 2),
            (Move(0, 3, Side::Left), 21, 3),
            // the first test wins, as for a swap
            (Move(6, 5, Side::Left), 9, 6),
            (Move(7, 7, Side::Right), 9, 7),
            (Move(2, 7, Side::Right), 9, 7),
            (Move(2, 2, Side::Left), 10, 2),
            (Move(3, 2, Side::Right), 21, 3),
        ],
    )
}

#[test]
fn put_in(rt: HostRuntime) -> Result<(), Fail> {
    check_refusals(
        &rt,
        rt.alloc(),
        &[
            (PutIn(5, 0, Side::Left), 9, 5),
            (PutIn(0, 4, Side::Right), 22, 0),
            (PutIn(2, 5, Side::Left), 9, 5),
            (PutIn(2, 3, Side::Right), 21, 3),
            (PutIn(3, 3, Side::Left), 21, 3),
            // the first test wins: 9 and 22 for the first, then 9 and 21 for the second
            (PutIn(6, 5, Side::Right), 9, 6),
            (PutIn(4, 5, Side::Left), 22, 4),
            (PutIn(1, 3, Side::Left), 22, 1),
            (PutIn(1, 1, Side::Right), 22, 1),
        ],
    )
}

// In a plan of no blocks every number is unknown.
#[test]
fn no_blocks(rt: HostRuntime) -> Result<(), Fail> {
    let mut plan = Settled::new(rt.alloc())?;
    for edit in [
        Turn(0),
        TakeOut(0),
        Swap(0, 0),
        Move(0, 1, Side::Left),
        PutIn(0, 1, Side::Left),
    ] {
        plan = begun_empty(&rt, plan, edit, 9, 0, &[])?.keep();
        check_tree(&rt, &plan, &[])?;
    }
    assert_eq!(rt; plan.kept(), 0);
    Ok(())
}

#[test]
fn reports(rt: HostRuntime) -> Result<(), Fail> {
    let plan = rest(&rt, rt.alloc())?;
    check_refused(&rt, plan.report(2), 21, 2)?;
    check_refused(&rt, plan.report(3), 21, 3)?;
    check_refused(&rt, plan.report(5), 9, 5)?;
    check_refused(&rt, plan.report(65535), 9, 65535)
}
