// Trials in a row, and the count of those that were kept.
use crate::lists::Lists;
use crate::places::Place;
use crate::places::Place::*;
use crate::plan_k::reports_of_k;
use crate::samples::{K, counted_k, sample_k};
use crate::telling::{check_reports, check_tree};
use crate::trying::{begun, begun_empty};
use plan::{Settled, Tried};
use rules::edits::Edit::*;
use rules::edits::{Edit, Side};
use std::alloc::Global;
use std::process::Abort;
use std::test::Fail;

// How a trial ends.
#[derive(Clone, Copy)]
enum End {
    Kept,
    Undone,
}

use End::*;

fn ended(trial: Tried, end: End) -> Settled {
    match end {
        Kept => trial.keep(),
        Undone => trial.undo(),
    }
}

fn check_state(rt: &impl Abort, plan: &Settled, tree: &[Place], count: u32) -> Result<(), Fail> {
    check_tree(rt, plan, tree)?;
    assert_eq!(rt; plan.kept(), count);
    Ok(())
}

// Trials of K in a row, each with the tree that its edit gives. Undoing one goes back to the tree that was kept last.
fn run(rt: &impl Abort, heap: Global, steps: &[(End, Edit, [Place; 5])]) -> Result<Settled, Fail> {
    let mut plan = sample_k(rt, heap)?;
    let mut tree = K;
    let mut count = 0u32;
    for (end, edit, after) in steps.iter() {
        if let Kept = end {
            tree = *after;
            count = count.saturating_add(1);
        }
        plan = ended(begun(rt, plan, *edit, after)?, *end);
        check_state(rt, &plan, &tree, count)?;
    }
    Ok(plan)
}

#[test]
fn there_and_back(rt: HostRuntime) -> Result<(), Fail> {
    let swapped = [Leaf, Both(3, 0), Leaf, Leaf, Both(1, 2)];
    let moved = [Both(1, 3), Right(4), Leaf, Right(2), Leaf];
    let steps = [
        (Kept, Swap(0, 4), swapped),
        (Kept, Swap(4, 0), K),
        (Undone, Move(3, 0, Side::Right), moved),
        (Kept, Move(3, 0, Side::Right), moved),
        (Kept, Move(3, 1, Side::Left), K),
    ];
    check_reports(&rt, &run(&rt, rt.alloc(), &steps)?, &reports_of_k())
}

// An edit that leaves the plan as it was is no empty trial, and is counted.
#[test]
fn edits_that_alter_nothing(rt: HostRuntime) -> Result<(), Fail> {
    let steps = [(Kept, Turn(3), K), (Kept, Move(2, 0, Side::Right), K)];
    check_reports(&rt, &run(&rt, rt.alloc(), &steps)?, &reports_of_k())
}

#[test]
fn kept_then_undone(rt: HostRuntime) -> Result<(), Fail> {
    let swapped = [Leaf, Both(3, 0), Leaf, Leaf, Both(1, 2)];
    let without_4 = [Leaf, Both(3, 0), Left(1), Leaf, Out];
    let right_of_2 = [Leaf, Both(3, 0), Both(1, 4), Leaf, Leaf];
    let steps = [
        (Kept, Swap(0, 4), swapped),
        (Undone, TakeOut(4), without_4),
        (Undone, Swap(4, 0), K),
        (Kept, TakeOut(4), without_4),
        (Undone, PutIn(4, 2, Side::Right), right_of_2),
    ];
    check_state(&rt, &run(&rt, rt.alloc(), &steps)?, &without_4, 2)
}

#[test]
fn long_run(rt: HostRuntime) -> Result<(), Fail> {
    let moved = [Both(4, 2), Leaf, Left(1), Leaf, Left(3)];
    let without_0 = [Out, Leaf, Both(4, 1), Leaf, Left(3)];
    let swapped = [Out, Leaf, Both(3, 1), Left(4), Leaf];
    let under_4 = [Out, Leaf, Left(3), Leaf, Both(2, 1)];
    let left_of_1 = [Leaf, Left(0), Left(3), Leaf, Both(2, 1)];
    let right_of_3 = [Leaf, Leaf, Left(3), Right(0), Both(2, 1)];
    let lowest_4 = [Left(4), Left(2), Left(3), Right(0), Leaf];
    let lowest_0 = [Leaf, Left(2), Left(3), Right(4), Left(0)];
    let without_3 = [Left(4), Left(2), Left(0), Out, Leaf];
    let steps = [
        (Kept, Move(1, 2, Side::Left), moved),
        (Undone, TakeOut(0), without_0),
        (Kept, TakeOut(0), without_0),
        (Undone, Swap(3, 4), swapped),
        (Kept, Swap(2, 4), under_4),
        (Undone, PutIn(0, 1, Side::Left), left_of_1),
        (Kept, PutIn(0, 3, Side::Right), right_of_3),
        (Kept, Turn(0), right_of_3),
        (Kept, Move(4, 0, Side::Left), lowest_4),
        (Undone, Swap(0, 4), lowest_0),
        (Kept, TakeOut(3), without_3),
    ];
    check_state(&rt, &run(&rt, rt.alloc(), &steps)?, &without_3, 7)
}

// An empty trial alters nothing and is not counted, be it kept or undone.
#[test]
fn empty_trials(rt: HostRuntime) -> Result<(), Fail> {
    let mut plan = counted_k(&rt, rt.alloc())?;
    for end in [Kept, Undone, Kept] {
        plan = ended(begun_empty(&rt, plan, Swap(2, 2), 10, 2, &K)?, end);
        check_reports(&rt, &plan, &reports_of_k())?;
    }
    assert_eq!(rt; plan.kept(), 2);
    Ok(())
}

// A load puts all blocks in again, and the count back to 0.
#[test]
fn load_after_trials(rt: HostRuntime) -> Result<(), Fail> {
    let lists = Lists::of_tree(rt.alloc(), 0, b'F', &K)?;
    let mut plan = counted_k(&rt, rt.alloc())?.begin(TakeOut(0)).keep();
    assert_eq!(rt; plan.kept(), 3);
    assert_eq!(rt; lists.load(&mut plan, &mut [0; 5]), Ok(5));
    check_state(&rt, &plan, &K, 0)
}
