// A plan packed over each kind of skyline, and what has to come out.
use columns::Columns;
use packer::{Extent, Spot, pack};
use placed::Placed;
use plan::Plan;
use rules::placements::Placement;
use rules::refusals::Refusal;
use skyline::skylines::Skyline;
use skyline::spans::Run;
use std::alloc::Global;
use std::process::Abort;
use std::test::Fail;
use steps::steps::Steps;

// What a record holds before a packing.
pub const OLD_PLACE: Placement = Placement {
    x: 99,
    y: 99,
    width: 99,
    height: 99,
};

const OLD_SPOT: Spot = Spot {
    block: 99,
    left: 99,
};

const OLD_RUN: Run = Run {
    start: 0,
    end: 12,
    top: 99,
};

// The heights of the first columns before a packing, after one raise.
pub const OLD_HEIGHTS: [u32; 9] = [0, 0, 5, 5, 5, 5, 0, 0, 0];

// A refusal's number and place, as in skyline_tests: a crate for these lines would be longer.
#[derive(Clone, Copy, PartialEq, Eq, Debug)]
pub struct Refused(pub u8, pub u32);

impl From<Refusal> for Refused {
    fn from(refusal: Refusal) -> Refused {
        Refused(refusal.number(), refusal.place())
    }
}

pub type Answer = Result<Extent, Refused>;

// The number of walk records, C and R; then the answer, how many raises are used up afterwards, all records, and the heights of the
// columns, as far as there are any.
#[derive(Clone, Copy)]
pub struct Task<'a> {
    pub walk: usize,
    pub columns: u32,
    pub raises: usize,
    pub answer: Answer,
    pub used: u32,
    pub places: &'a [Placement],
    pub heights: &'a [u32],
}

fn check_heights<S: Skyline>(rt: &impl Abort, skyline: &S, heights: &[u32]) {
    let told = heights.len().min(skyline.columns() as usize);
    for (c, height) in heights[..told].iter().enumerate() {
        let c = c as u32;
        assert_eq!(rt; skyline.highest(c, c + 1).ok(), Some(*height));
    }
}

// The walk memory is as before.
fn check_walk(rt: &impl Abort, walk: &[Spot]) -> Result<(), Fail> {
    for spot in walk {
        assert_eq!(rt; (spot.block, spot.left), (OLD_SPOT.block, OLD_SPOT.left));
    }
    Ok(())
}

// What a packing answered and left is what the task says.
fn check_left<S: Skyline>(
    rt: &impl Abort,
    skyline: &S,
    task: Task<'_>,
    answer: Answer,
    places: &[Placement],
) {
    assert_eq!(rt; answer, task.answer);
    assert_eq!(rt; places, task.places);
    assert_eq!(rt;
        skyline.raises().saturating_sub(skyline.raises_left()),
        task.used
    );
    check_heights(rt, skyline, task.heights);
}

// Packs over a skyline that was raised before. A refusal with 18 leaves the walk memory as it was.
fn check_over<S: Skyline>(
    rt: &impl Abort,
    heap: Global,
    plan: &Plan,
    skyline: &mut S,
    task: Task<'_>,
) -> Result<(), Fail> {
    let mut walk = vec![in heap; OLD_SPOT; task.walk]?;
    let mut places = vec![in heap; OLD_PLACE; task.places.len()]?;
    skyline.raise(2, 6, 5)?;
    let answer = pack(plan, skyline, &mut walk, &mut places).map_err(Refused::from);
    check_left(rt, skyline, task, answer, &places);
    match answer {
        Err(Refused(18, _)) => check_walk(rt, &walk),
        _ => Ok(()),
    }
}

pub fn check_over_records(
    rt: &impl Abort,
    heap: Global,
    plan: &Plan,
    task: Task<'_>,
) -> Result<(), Fail> {
    let mut records = vec![in heap; OLD_RUN; task.raises]?;
    let mut runs = vec![in heap; OLD_RUN; task.raises.saturating_mul(2).saturating_add(1)]?;
    check_over(
        rt,
        heap,
        plan,
        &mut Placed::new(&mut records, task.columns),
        task,
    )?;
    check_over(
        rt,
        heap,
        plan,
        &mut Steps::new(&mut runs, task.columns),
        task,
    )
}

fn check_over_columns(
    rt: &impl Abort,
    heap: Global,
    plan: &Plan,
    task: Task<'_>,
) -> Result<(), Fail> {
    let mut heights = vec![in heap; 99u32; task.columns as usize]?;
    check_over(rt, heap, plan, &mut Columns::new(&mut heights), task)
}

// Over each of the three kinds.
pub fn check_over_each(
    rt: &impl Abort,
    heap: Global,
    plan: &Plan,
    task: Task<'_>,
) -> Result<(), Fail> {
    check_over_records(rt, heap, plan, task)?;
    check_over_columns(rt, heap, plan, task)
}
