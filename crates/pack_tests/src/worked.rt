// The worked cases, K and K after an edit, in memory that just suffices; and what is refused where one record, column or raise is
// lacking.
use crate::lists::{Tree, load};
use crate::tasks::{OLD_HEIGHTS, OLD_PLACE, Refused, Task, check_over_each, check_over_records};
use packer::Extent;
use plan::{Plan, Settled};
use rules::blocks::{Children, NONE, Size};
use rules::edits::Edit::*;
use rules::edits::{Edit, Side};
use rules::placements::Placement;
use std::alloc::Global;
use std::process::Abort;
use std::test::Fail;

fn size(width: u32, height: u32) -> Size {
    Size { width, height }
}

fn pair(left: u16, right: u16) -> Children {
    Children { left, right }
}

fn plan_k(rt: &impl Abort, heap: Global) -> Result<Settled, Fail> {
    let sizes = [size(4, 3), size(3, 2), size(2, 4), size(2, 2), size(5, 1)];
    let leaf = pair(NONE, NONE);
    let children = [pair(1, 2), pair(3, 4), leaf, leaf, leaf];
    let mut plan = Settled::new(heap)?;
    let tree = Tree {
        sizes: &sizes,
        children: &children,
        root: 0,
    };
    assert!(rt; load(heap, &mut plan, tree)?);
    Ok(plan)
}

// An edit of K, and what K packs to then: how many blocks are present, the width and the height, x, y, width and height of each block,
// and the heights of the columns.
#[derive(Clone, Copy)]
struct Case {
    edit: Edit,
    present: u32,
    extent: (u32, u32),
    places: [[u32; 4]; 5],
    columns: [u32; 11],
}

// Turning the square block alters nothing.
const K: Case = Case {
    edit: Turn(3),
    present: 5,
    extent: (9, 7),
    places: [
        [0, 0, 4, 3],
        [4, 0, 3, 2],
        [0, 3, 2, 4],
        [7, 0, 2, 2],
        [4, 2, 5, 1],
    ],
    columns: [7, 7, 3, 3, 3, 3, 3, 3, 3, 0, 0],
};

const EDITED: [Case; 6] = [
    K,
    Case {
        edit: TakeOut(0),
        present: 4,
        extent: (7, 4),
        places: [
            [0, 0, 0, 0],
            [2, 0, 3, 2],
            [0, 0, 2, 4],
            [5, 0, 2, 2],
            [2, 2, 5, 1],
        ],
        columns: [4, 4, 3, 3, 3, 3, 3, 0, 0, 0, 0],
    },
    Case {
        edit: Swap(0, 4),
        present: 5,
        extent: (10, 5),
        places: [
            [5, 2, 4, 3],
            [5, 0, 3, 2],
            [0, 1, 2, 4],
            [8, 0, 2, 2],
            [0, 0, 5, 1],
        ],
        columns: [5, 5, 1, 1, 1, 5, 5, 5, 5, 2, 0],
    },
    Case {
        edit: Move(3, 0, Side::Right),
        present: 5,
        extent: (9, 9),
        places: [
            [0, 0, 4, 3],
            [4, 0, 3, 2],
            [0, 5, 2, 4],
            [0, 3, 2, 2],
            [4, 2, 5, 1],
        ],
        columns: [9, 9, 3, 3, 3, 3, 3, 3, 3, 0, 0],
    },
    Case {
        edit: Turn(1),
        present: 5,
        extent: (9, 7),
        places: [
            [0, 0, 4, 3],
            [4, 0, 2, 3],
            [0, 3, 2, 4],
            [6, 0, 2, 2],
            [4, 3, 5, 1],
        ],
        columns: [7, 7, 3, 3, 4, 4, 4, 4, 4, 0, 0],
    },
    Case {
        edit: Move(2, 0, Side::Left),
        present: 5,
        extent: (11, 4),
        places: [
            [0, 0, 4, 3],
            [6, 0, 3, 2],
            [4, 0, 2, 4],
            [9, 0, 2, 2],
            [6, 2, 5, 1],
        ],
        columns: [3, 3, 3, 3, 4, 4, 3, 3, 3, 3, 3],
    },
];

fn place([x, y, width, height]: [u32; 4]) -> Placement {
    Placement {
        x,
        y,
        width,
        height,
    }
}

// In just as many records, columns and raises as it takes.
fn check_case(rt: &impl Abort, heap: Global, plan: &Plan, case: &Case) -> Result<(), Fail> {
    let places = case.places.map(place);
    let (width, height) = case.extent;
    let task = Task {
        walk: case.present as usize,
        columns: width,
        raises: case.present as usize,
        answer: Ok(Extent { width, height }),
        used: case.present,
        places: &places,
        heights: &case.columns,
    };
    check_over_each(rt, heap, plan, task)
}

// Packed in the trial of the edit, and again once that is undone.
fn check_trial(rt: &impl Abort, heap: Global, case: &Case) -> Result<(), Fail> {
    let trial = plan_k(rt, heap)?.begin(case.edit);
    let result = check_case(rt, heap, trial.plan(), case);
    let plan = trial.undo();
    result?;
    check_case(rt, heap, plan.plan(), &K)
}

#[test]
fn edits_of_k(rt: HostRuntime) -> Result<(), Fail> {
    for case in &EDITED {
        check_trial(&rt, rt.alloc(), case)?;
    }
    Ok(())
}

// A plan of no blocks has no width and no height, and wants no memory.
#[test]
fn no_blocks(rt: HostRuntime) -> Result<(), Fail> {
    let plan = Settled::new(rt.alloc())?;
    let task = Task {
        walk: 0,
        columns: 6,
        raises: 1,
        answer: Ok(Extent {
            width: 0,
            height: 0,
        }),
        used: 0,
        places: &[],
        heights: &[0; 6],
    };
    check_over_each(&rt, rt.alloc(), plan.plan(), task)
}

// Walk and placement records, C and R; the number. A skyline of columns always has raises enough.
fn check_refused(
    rt: &impl Abort,
    heap: Global,
    plan: &Plan,
    case: (usize, usize, u32, usize, u8),
) -> Result<(), Fail> {
    let (walk, records, columns, raises, number) = case;
    let places = vec![in heap; OLD_PLACE; records]?;
    let task = Task {
        walk,
        columns,
        raises,
        answer: Err(Refused(number, 0)),
        used: 1,
        places: &places,
        heights: &OLD_HEIGHTS,
    };
    if number == 27 {
        return check_over_records(rt, heap, plan, task);
    }
    check_over_each(rt, heap, plan, task)
}

fn check_refusals(
    rt: &impl Abort,
    heap: Global,
    plan: &Plan,
    cases: &[(usize, usize, u32, usize, u8)],
) -> Result<(), Fail> {
    for case in cases {
        check_refused(rt, heap, plan, *case)?;
    }
    Ok(())
}

// K has five blocks and reaches 9. Without block 0 four are present, and it reaches 7; records are wanted for all five. 18 comes before 26
// and 27, and 26 before 27.
#[test]
fn refusals(rt: HostRuntime) -> Result<(), Fail> {
    let plan = plan_k(&rt, rt.alloc())?;
    let of_k = [
        (4, 5, 9, 5, 18),
        (5, 4, 9, 5, 18),
        (0, 0, 9, 5, 18),
        (5, 5, 8, 5, 26),
        (5, 5, 9, 4, 27),
        (4, 5, 8, 5, 18),
        (5, 4, 8, 5, 18),
        (4, 5, 9, 4, 18),
        (5, 4, 9, 4, 18),
        (4, 4, 8, 4, 18),
        (5, 5, 8, 4, 26),
    ];
    check_refusals(&rt, rt.alloc(), plan.plan(), &of_k)?;
    let without_0 = [
        (3, 5, 7, 4, 18),
        (4, 4, 7, 4, 18),
        (4, 5, 6, 4, 26),
        (4, 5, 7, 3, 27),
        (3, 5, 6, 3, 18),
        (4, 5, 6, 3, 26),
    ];
    check_refusals(
        &rt,
        rt.alloc(),
        plan.begin(TakeOut(0)).keep().plan(),
        &without_0,
    )
}
