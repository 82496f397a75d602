// The tests of lengths, which come first and leave the walk memory as it was.
use crate::lists::Lists;
use crate::loads::chain;
use crate::places::Place::*;
use crate::plan_k::reports_of_k;
use crate::samples::sample_k;
use crate::telling::{check_refused, check_reports};
use rules::blocks::{Children, Size};
use std::alloc::{AllocError, Global};
use std::process::Abort;
use std::test::Fail;

// Lists of these lengths, in which every size, letter and child and the root is wrong.
fn wrong_lists(
    heap: Global,
    sizes: usize,
    letters: usize,
    children: usize,
) -> Result<Lists, AllocError> {
    let pair = Children {
        left: 9999,
        right: 9999,
    };
    Ok(Lists {
        sizes: vec![in heap; Size::default(); sizes]?,
        letters: vec![in heap; b'X'; letters]?,
        children: vec![in heap; pair; children]?,
        root: 9999,
    })
}

fn check_all(rt: &impl Abort, memory: &[u16], value: u16) {
    for x in memory {
        assert_eq!(rt; *x, value);
    }
}

// The load is refused with this number at 0, and alters neither the plan nor the walk memory.
fn check_refusal(
    rt: &impl Abort,
    heap: Global,
    lists: &Lists,
    walk: usize,
    number: u8,
) -> Result<(), Fail> {
    let mut memory = vec![in heap; 7u16; walk]?;
    let mut plan = sample_k(rt, heap)?;
    check_refused(rt, lists.load(&mut plan, &mut memory), number, 0)?;
    check_reports(rt, &plan, &reports_of_k())?;
    check_all(rt, &memory, 7);
    Ok(())
}

// Sizes, letters, children, walk memory; the number.
fn check_lengths(rt: &impl Abort, heap: Global, cases: &[([usize; 4], u8)]) -> Result<(), Fail> {
    for (lengths, number) in cases.iter() {
        let [sizes, letters, children, walk] = *lengths;
        let lists = wrong_lists(heap, sizes, letters, children)?;
        check_refusal(rt, heap, &lists, walk, *number)?;
    }
    Ok(())
}

#[test]
fn too_many_blocks(rt: HostRuntime) -> Result<(), Fail> {
    check_lengths(
        &rt,
        rt.alloc(),
        &[
            ([513, 513, 513, 513], 1),
            ([600, 600, 600, 600], 1),
            // before lengths that differ, and before walk memory that is too short
            ([513, 512, 513, 513], 1),
            ([513, 513, 0, 513], 1),
            ([513, 513, 513, 512], 1),
            ([513, 0, 0, 0], 1),
        ],
    )
}

// A chain of 513 with no fault but its length.
#[test]
fn chain_of_513(rt: HostRuntime) -> Result<(), Fail> {
    let mut lists = chain(rt.alloc())?;
    if let Some(last) = lists.children.get_mut(511) {
        *last = Left(512).children();
    }
    lists.push(2, 3, b'F', Leaf)?;
    check_refusal(&rt, rt.alloc(), &lists, 513, 1)
}

#[test]
fn lengths_differ(rt: HostRuntime) -> Result<(), Fail> {
    check_lengths(
        &rt,
        rt.alloc(),
        &[
            ([3, 2, 3, 3], 2),
            ([3, 4, 3, 3], 2),
            ([3, 3, 2, 3], 2),
            ([3, 3, 4, 3], 2),
            ([3, 2, 2, 3], 2),
            ([3, 0, 0, 3], 2),
            ([0, 1, 0, 0], 2),
            ([0, 0, 1, 0], 2),
            ([512, 513, 513, 512], 2),
            // before walk memory that is too short
            ([3, 2, 3, 2], 2),
            ([3, 3, 4, 0], 2),
        ],
    )
}

#[test]
fn walk_too_short(rt: HostRuntime) -> Result<(), Fail> {
    check_lengths(
        &rt,
        rt.alloc(),
        &[
            ([1, 1, 1, 0], 18),
            ([3, 3, 3, 2], 18),
            ([3, 3, 3, 0], 18),
            ([512, 512, 512, 511], 18),
        ],
    )
}

// With the lengths right the first wrong side is found, or with no blocks the root.
#[test]
fn lengths_right(rt: HostRuntime) -> Result<(), Fail> {
    let heap = rt.alloc();
    let mut plan = sample_k(&rt, heap)?;
    for (blocks, walk, number) in [(0, 0, 6), (3, 3, 3), (3, 4, 3), (512, 512, 3)] {
        let lists = wrong_lists(heap, blocks, blocks, blocks)?;
        let mut memory = vec![in heap; 7u16; walk]?;
        check_refused(&rt, lists.load(&mut plan, &mut memory), number, 0)?;
    }
    check_reports(&rt, &plan, &reports_of_k())
}
