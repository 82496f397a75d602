// 512 blocks of the largest size in a row, and one above the other.
use crate::lists::{Tree, load};
use crate::tasks::{OLD_HEIGHTS, OLD_PLACE, Refused, Task, check_over_each, check_over_records};
use packer::Extent;
use plan::Settled;
use rules::blocks::{Children, Size};
use rules::edits::Side;
use rules::placements::Placement;
use std::alloc::{AllocError, Global};
use std::process::Abort;
use std::test::Fail;

const LARGEST: Size = Size {
    width: 131_072,
    height: 131_072,
};

// The children of a block in a chain of 512 children on that side.
fn in_chain(block: u16, side: Side) -> Children {
    let mut children = Children::NONE;
    if block < 511 {
        children.set(side, block + 1);
    }
    children
}

fn chain(rt: &impl Abort, heap: Global, side: Side) -> Result<Settled, Fail> {
    let mut children = Vec::new(heap);
    for block in 0..512u16 {
        children.push(in_chain(block, side))?;
    }
    let mut plan = Settled::new(heap)?;
    let tree = Tree {
        sizes: &[LARGEST; 512],
        children: &children,
        root: 0,
    };
    assert!(rt; load(heap, &mut plan, tree)?);
    Ok(plan)
}

// Each block stands that far to the right of the one before, and above it.
fn steps_of(heap: Global, right: u32, up: u32) -> Result<Vec<Placement>, AllocError> {
    let mut places = Vec::new(heap);
    for block in 0..512u32 {
        places.push(Placement {
            x: block.saturating_mul(right),
            y: block.saturating_mul(up),
            width: 131_072,
            height: 131_072,
        })?;
    }
    Ok(places)
}

// A row that reaches just the last column that a skyline has.
#[test]
fn in_a_row(rt: HostRuntime) -> Result<(), Fail> {
    let plan = chain(&rt, rt.alloc(), Side::Left)?;
    let places = steps_of(rt.alloc(), 131_072, 0)?;
    let task = Task {
        walk: 512,
        columns: 67_108_864,
        raises: 512,
        answer: Ok(Extent {
            width: 67_108_864,
            height: 131_072,
        }),
        used: 512,
        places: &places,
        heights: &[131_072; 9],
    };
    check_over_records(&rt, rt.alloc(), plan.plan(), task)
}

// With one column fewer it is refused.
#[test]
fn in_a_row_too_long(rt: HostRuntime) -> Result<(), Fail> {
    let plan = chain(&rt, rt.alloc(), Side::Left)?;
    let task = Task {
        walk: 512,
        columns: 67_108_863,
        raises: 512,
        answer: Err(Refused(26, 0)),
        used: 1,
        places: &[OLD_PLACE; 512],
        heights: &OLD_HEIGHTS,
    };
    check_over_records(&rt, rt.alloc(), plan.plan(), task)
}

// One above the other, up to half of the greatest height.
#[test]
fn in_a_column(rt: HostRuntime) -> Result<(), Fail> {
    let plan = chain(&rt, rt.alloc(), Side::Right)?;
    let places = steps_of(rt.alloc(), 0, 131_072)?;
    let task = Task {
        walk: 512,
        columns: 131_072,
        raises: 512,
        answer: Ok(Extent {
            width: 131_072,
            height: 67_108_864,
        }),
        used: 512,
        places: &places,
        heights: &[67_108_864; 9],
    };
    check_over_each(&rt, rt.alloc(), plan.plan(), task)
}
