// Loads of three blocks with faults in them: each refusal, and the order of the tests.
use crate::lists::Lists;
use crate::places::Place;
use crate::places::Place::*;
use crate::plan_k::reports_of_k;
use crate::samples::counted_k;
use crate::telling::{check_refused, check_reports};
use plan::Settled;
use rules::blocks::Size;
use std::alloc::Global;
use std::process::Abort;
use std::test::Fail;

// What is wrong: the sides, the letter or the place of a block, or the root.
#[derive(Clone, Copy, Debug)]
enum Fault {
    Sides(usize, u32, u32),
    Letter(usize, u8),
    At(usize, Place),
    Root(u16),
}

use Fault::*;

fn spoil(lists: &mut Lists, fault: Fault) {
    match fault {
        Sides(i, width, height) => {
            if let Some(size) = lists.sizes.get_mut(i) {
                *size = Size { width, height };
            }
        }
        Letter(i, byte) => {
            if let Some(letter) = lists.letters.get_mut(i) {
                *letter = byte;
            }
        }
        At(i, place) => {
            if let Some(children) = lists.children.get_mut(i) {
                *children = place.children();
            }
        }
        Root(root) => lists.root = root,
    }
}

// A load with these faults is refused, and leaves the plan as it was.
fn check_fault(
    rt: &impl Abort,
    heap: Global,
    faults: &[Fault],
    number: u8,
    place: u32,
) -> Result<(), Fail> {
    let mut lists = Lists::of_tree(heap, 0, b'F', &[Both(1, 2), Leaf, Leaf])?;
    for fault in faults.iter() {
        spoil(&mut lists, *fault);
    }
    let mut plan = counted_k(rt, heap)?;
    check_refused(rt, lists.load(&mut plan, &mut [0; 3]), number, place)?;
    check_reports(rt, &plan, &reports_of_k())?;
    assert_eq!(rt; plan.kept(), 2, "{faults:?}");
    Ok(())
}

fn check_faults(rt: &impl Abort, heap: Global, cases: &[(&[Fault], u8, u32)]) -> Result<(), Fail> {
    for (faults, number, place) in cases.iter() {
        check_fault(rt, heap, *faults, *number, *place)?;
    }
    Ok(())
}

#[test]
fn wrong_sides(rt: HostRuntime) -> Result<(), Fail> {
    check_faults(
        &rt,
        rt.alloc(),
        &[
            (&[Sides(0, 0, 3)], 3, 0),
            (&[Sides(0, 2, 0)], 3, 0),
            (&[Sides(1, 131073, 3)], 3, 1),
            (&[Sides(2, 2, 131073)], 3, 2),
            (&[Sides(2, 4294967295, 4294967295)], 3, 2),
            // the first block, and before a letter, a child or the root
            (&[Sides(2, 0, 3), Sides(1, 2, 0)], 3, 1),
            (&[Sides(2, 0, 3), Letter(0, b'X')], 3, 2),
            (&[Sides(2, 0, 3), At(0, Left(3))], 3, 2),
            (&[Sides(1, 0, 0), Root(3)], 3, 1),
        ],
    )
}

#[test]
fn wrong_letters(rt: HostRuntime) -> Result<(), Fail> {
    check_faults(
        &rt,
        rt.alloc(),
        &[
            (&[Letter(0, b'f')], 4, 0),
            (&[Letter(2, b'X')], 4, 2),
            // the first block, and before a child or the root
            (&[Letter(2, b'X'), Letter(1, b' ')], 4, 1),
            (&[Letter(2, b'X'), At(0, Both(1, 3))], 4, 2),
            (&[Letter(1, b'X'), Root(9)], 4, 1),
            (&[Letter(2, b'X'), At(1, Left(2))], 4, 2),
        ],
    )
}

#[test]
fn wrong_children(rt: HostRuntime) -> Result<(), Fail> {
    check_faults(
        &rt,
        rt.alloc(),
        &[
            (&[At(1, Left(3))], 5, 1),
            (&[At(1, Right(3))], 5, 1),
            (&[At(2, Left(65534))], 5, 2),
            (&[At(0, Both(1, 65534))], 5, 0),
            (&[At(0, Both(9, 2))], 5, 0),
            // the first block, and before the root or a block that is child twice
            (&[At(2, Left(3)), At(1, Right(9))], 5, 1),
            (&[At(2, Right(3)), Root(3)], 5, 2),
            (&[At(2, Right(3)), At(1, Left(1))], 5, 2),
        ],
    )
}

#[test]
fn wrong_root(rt: HostRuntime) -> Result<(), Fail> {
    check_faults(
        &rt,
        rt.alloc(),
        &[
            (&[Root(3)], 6, 0),
            (&[Root(65534)], 6, 0),
            (&[Root(65535)], 6, 0),
            // before a block that is child twice, or unreached
            (&[Root(3), At(1, Left(2))], 6, 0),
            (&[Root(65535), At(0, Leaf)], 6, 0),
        ],
    )
}

// With no blocks the root is 65535.
#[test]
fn wrong_root_of_none(rt: HostRuntime) -> Result<(), Fail> {
    let mut plan = counted_k(&rt, rt.alloc())?;
    for root in [0, 1, 65534] {
        let lists = Lists::new(rt.alloc(), root);
        check_refused(&rt, lists.load(&mut plan, &mut []), 6, 0)?;
    }
    check_reports(&rt, &plan, &reports_of_k())
}

#[test]
fn child_twice(rt: HostRuntime) -> Result<(), Fail> {
    check_faults(
        &rt,
        rt.alloc(),
        &[
            // of two parents, and of one; a block of its parent and of itself
            (&[At(0, Left(1)), At(2, Right(1))], 7, 1),
            (&[At(0, Both(1, 1))], 7, 1),
            (&[At(1, Left(1))], 7, 1),
            (&[At(1, Left(2))], 7, 2),
            // the root as a child
            (&[At(1, Left(0))], 7, 0),
            (&[At(2, Right(0))], 7, 0),
            (&[At(0, Left(0))], 7, 0),
            (&[Root(2)], 7, 2),
            // the lowest block, and before one that is unreached
            (&[At(0, Both(2, 1)), At(1, Both(2, 1))], 7, 1),
            (&[At(1, Left(2)), At(2, Left(1))], 7, 1),
            (&[At(0, Leaf), At(1, Both(2, 2))], 7, 2),
        ],
    )
}

#[test]
fn unreached(rt: HostRuntime) -> Result<(), Fail> {
    check_faults(
        &rt,
        rt.alloc(),
        &[
            (&[At(0, Left(1))], 8, 2),
            (&[At(0, Right(2))], 8, 1),
            // the lowest block
            (&[At(0, Leaf)], 8, 1),
            (&[At(0, Leaf), Root(1)], 8, 0),
            // blocks that are children in a ring
            (&[At(0, Leaf), At(1, Left(2)), At(2, Left(1))], 8, 1),
            (&[At(0, Left(1)), At(1, Right(0)), Root(2)], 8, 0),
            (&[At(0, Left(1)), At(2, Right(2))], 8, 2),
        ],
    )
}

fn check_byte(rt: &impl Abort, heap: Global, byte: u8) -> Result<(), Fail> {
    let mut lists = Lists::of_tree(heap, 0, b'F', &[Right(1), Leaf])?;
    spoil(&mut lists, Letter(1, byte));
    let mut plan = Settled::new(heap)?;
    let answer = lists.load(&mut plan, &mut [0; 2]);
    match byte {
        b'F' | b'T' | b'B' | b'L' | b'R' => {
            assert_eq!(rt; answer, Ok(2), "byte {byte}");
            Ok(())
        },
        _ => check_refused(rt, answer, 4, 1),
    }
}

// Of all bytes the five letters alone are taken.
#[test]
fn every_byte(rt: HostRuntime) -> Result<(), Fail> {
    for byte in 0..=255u8 {
        check_byte(&rt, rt.alloc(), byte)?;
    }
    Ok(())
}
