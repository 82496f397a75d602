// Which blocks keep their letters, before an edit, in its trial, and after it is undone or kept.
use crate::lists::Lists;
use crate::places::Place;
use crate::places::Place::*;
use crate::samples::{K, sample};
use crate::telling::Telling;
use crate::trying::passed;
use plan::Settled;
use rules::blocks::Letter;
use rules::edits::Edit::*;
use rules::edits::{Edit, Side};
use std::alloc::Global;
use std::process::Abort;
use std::test::Fail;

fn is_kept<P: Telling>(plan: &P, block: u16) -> bool {
    plan.tell(block).is_ok_and(|report| report.kept)
}

// Of five blocks just these are present and keep their letters.
fn check_kept<P: Telling>(rt: &impl Abort, plan: &P, kept: &[u16]) -> Result<(), Fail> {
    for block in 0..5u16 {
        assert_eq!(rt;
            is_kept(plan, block),
            kept.contains(&block),
            "block {block}"
        );
    }
    Ok(())
}

fn check_edit(
    rt: &impl Abort,
    plan: Settled,
    before: &[u16],
    edit: Edit,
    after: &[u16],
) -> Result<(), Fail> {
    check_kept(rt, &plan, before)?;
    let trial = plan.begin(edit);
    let result = check_kept(rt, &trial, after);
    let plan = passed(trial, result)?.undo();
    check_kept(rt, &plan, before)?;
    check_kept(rt, &plan.begin(edit).keep(), after)
}

// In this tree, with this letter for each block, `before` are kept; after each edit those beside it.
fn check_letter(
    rt: &impl Abort,
    heap: Global,
    letter: u8,
    tree: &[Place],
    before: &[u16],
    cases: &[(Edit, &[u16])],
) -> Result<(), Fail> {
    for (edit, after) in cases.iter() {
        let plan = sample(rt, heap, letter, tree)?;
        check_edit(rt, plan, before, *edit, *after)?;
    }
    Ok(())
}

// A tree with one letter for each block, and the blocks that keep it.
fn check_letters(
    rt: &impl Abort,
    heap: Global,
    cases: &[(u8, [Place; 5], &[u16])],
) -> Result<(), Fail> {
    for (letter, tree, kept) in cases.iter() {
        let plan = sample(rt, heap, *letter, tree)?;
        check_kept(rt, &plan, *kept)?;
    }
    Ok(())
}

// B: on the leftmost branch.
#[test]
fn bottom(rt: HostRuntime) -> Result<(), Fail> {
    check_letter(
        &rt,
        rt.alloc(),
        b'B',
        &K,
        &[0, 1, 3],
        &[
            (TakeOut(0), &[1, 2, 3]),
            (TakeOut(1), &[0, 3, 4]),
            (Move(3, 0, Side::Right), &[0, 1]),
            (Move(0, 3, Side::Left), &[0, 1, 2, 3]),
            (Swap(2, 3), &[0, 1, 2]),
            (Turn(0), &[0, 1, 3]),
        ],
    )
}

// L: on the rightmost branch.
#[test]
fn left(rt: HostRuntime) -> Result<(), Fail> {
    check_letter(
        &rt,
        rt.alloc(),
        b'L',
        &K,
        &[0, 2],
        &[
            (TakeOut(0), &[2]),
            (TakeOut(2), &[0]),
            (Move(3, 0, Side::Right), &[0, 2, 3]),
            (Swap(0, 4), &[2, 4]),
            (Turn(2), &[0, 2]),
        ],
    )
}

// R: on the bottom-left branch, if no block of it has a left child.
#[test]
fn right(rt: HostRuntime) -> Result<(), Fail> {
    check_letter(
        &rt,
        rt.alloc(),
        b'R',
        &[Both(1, 4), Right(2), Right(3), Leaf, Leaf],
        &[1, 2, 3],
        &[
            (Swap(4, 3), &[1, 2, 4]),
            (TakeOut(1), &[2, 3]),
            // a left child on the branch, then at its start: that is a branch of its own
            (Move(4, 2, Side::Left), &[]),
            (Move(4, 3, Side::Left), &[]),
            (Move(4, 1, Side::Left), &[4]),
            (Move(4, 3, Side::Right), &[1, 2, 3, 4]),
        ],
    )
}

// T: on the bottom-right branch, if no block of it has a right child.
#[test]
fn top(rt: HostRuntime) -> Result<(), Fail> {
    check_letter(
        &rt,
        rt.alloc(),
        b'T',
        &[Both(4, 1), Left(2), Left(3), Leaf, Leaf],
        &[1, 2, 3],
        &[
            (Swap(4, 3), &[1, 2, 4]),
            (TakeOut(1), &[2, 3]),
            // a right child on the branch, then at its start: that is a branch of its own
            (Move(4, 2, Side::Right), &[]),
            (Move(4, 3, Side::Right), &[]),
            (Move(4, 1, Side::Right), &[4]),
            (Move(4, 3, Side::Left), &[1, 2, 3, 4]),
        ],
    )
}

// The branches of a chain begin at the root, or have one block.
#[test]
fn chains(rt: HostRuntime) -> Result<(), Fail> {
    let rights = [Right(1), Right(2), Right(3), Right(4), Leaf];
    let lefts = [Left(1), Left(2), Left(3), Left(4), Leaf];
    check_letters(
        &rt,
        rt.alloc(),
        &[
            (b'B', rights, &[0]),
            (b'L', rights, &[0, 1, 2, 3, 4]),
            (b'R', rights, &[0, 1, 2, 3, 4]),
            (b'T', rights, &[4]),
            (b'B', lefts, &[0, 1, 2, 3, 4]),
            (b'L', lefts, &[0]),
            (b'R', lefts, &[4]),
            (b'T', lefts, &[0, 1, 2, 3, 4]),
            (b'F', K, &[0, 1, 2, 3, 4]),
        ],
    )
}

// A block alone keeps any letter.
#[test]
fn alone(rt: HostRuntime) -> Result<(), Fail> {
    for letter in [b'F', b'T', b'B', b'L', b'R'] {
        check_kept(&rt, &sample(&rt, rt.alloc(), letter, &[Leaf])?, &[0])?;
    }
    Ok(())
}

// The blocks have these letters, and keep them or not.
fn check_told<P: Telling>(
    rt: &impl Abort,
    plan: &P,
    expected: &[(Letter, bool)],
) -> Result<(), Fail> {
    for (block, (letter, kept)) in (0u16..).zip(expected) {
        let report = plan.tell(block)?;
        assert_eq!(rt; report.letter, *letter);
        assert_eq!(rt; report.kept, *kept, "block {block}");
    }
    Ok(())
}

fn lettered(
    rt: &impl Abort,
    heap: Global,
    letters: &[u8],
    tree: &[Place],
) -> Result<Settled, Fail> {
    let mut lists = Lists::of_tree(heap, 0, b'F', tree)?;
    lists.letters.clear();
    lists.letters.extend_from_slice(letters)?;
    let mut plan = Settled::new(heap)?;
    assert_eq!(rt; lists.load(&mut plan, &mut [0; 5]), Ok(tree.len()));
    Ok(plan)
}

// Each letter in one plan: swapping 2 and 3 breaks the letters of both.
#[test]
fn all_five(rt: HostRuntime) -> Result<(), Fail> {
    let before = [
        (Letter::Bottom, true),
        (Letter::Left, false),
        (Letter::Top, true),
        (Letter::Right, true),
        (Letter::Free, true),
    ];
    let after = [
        (Letter::Bottom, true),
        (Letter::Left, false),
        (Letter::Top, false),
        (Letter::Right, false),
        (Letter::Free, true),
    ];
    let plan = lettered(&rt, rt.alloc(), b"BLTRF", &K)?;
    check_told(&rt, &plan, &before)?;
    let trial = plan.begin(Swap(2, 3));
    let result = check_told(&rt, &trial, &after);
    check_told(&rt, &passed(trial, result)?.undo(), &before)
}
