// What a plan tells in either state, held to what is expected.
use crate::places::Place;
use plan::{Report, Settled, Tried};
use rules::blocks::Size;
use rules::refusals::Refusal;
use std::process::Abort;
use std::test::Fail;

pub trait Telling {
    fn tell(&self, block: u16) -> Result<Report, Refusal>;
}

impl Telling for Settled {
    fn tell(&self, block: u16) -> Result<Report, Refusal> {
        self.report(block)
    }
}

impl Telling for Tried {
    fn tell(&self, block: u16) -> Result<Report, Refusal> {
        self.report(block)
    }
}

// The refusal has this number and this place.
pub fn check_refused<T: Drop>(
    rt: &impl Abort,
    answer: Result<T, Refusal>,
    number: u8,
    place: u32,
) -> Result<(), Fail> {
    match answer {
        Ok(_) => Err(Fail::new("not refused")),
        Err(refusal) => {
            assert_eq!(rt; (refusal.number(), refusal.place()), (number, place));
            Ok(())
        },
    }
}

// The plan has no such block.
fn check_unknown<P: Telling>(rt: &impl Abort, plan: &P, block: u16) -> Result<(), Fail> {
    check_refused(rt, plan.tell(block), 9, u32::from(block))
}

fn check_place<P: Telling>(
    rt: &impl Abort,
    plan: &P,
    block: u16,
    place: Place,
) -> Result<(), Fail> {
    match place {
        Place::Out => check_refused(rt, plan.tell(block), 21, u32::from(block)),
        _ => {
            assert_eq!(rt;
                plan.tell(block)?.children,
                place.children(),
                "block {block}"
            );
            Ok(())
        },
    }
}

// The blocks are these, and each has its place.
pub fn check_tree<P: Telling>(rt: &impl Abort, plan: &P, tree: &[Place]) -> Result<(), Fail> {
    for (block, place) in (0u16..).zip(tree) {
        check_place(rt, plan, block, *place)?;
    }
    check_unknown(rt, plan, u16::try_from(tree.len())?)
}

// The blocks are these, all present, and each has its report.
pub fn check_reports<P: Telling>(
    rt: &impl Abort,
    plan: &P,
    reports: &[Report],
) -> Result<(), Fail> {
    for (block, report) in (0u16..).zip(reports) {
        assert_eq!(rt; plan.tell(block)?, *report, "block {block}");
    }
    check_unknown(rt, plan, u16::try_from(reports.len())?)
}

// The blocks are these, all present, with these widths and heights.
pub fn check_sides<P: Telling>(
    rt: &impl Abort,
    plan: &P,
    sides: &[(u32, u32)],
) -> Result<(), Fail> {
    for (block, (width, height)) in (0u16..).zip(sides) {
        let expected = Size {
            width: *width,
            height: *height,
        };
        assert_eq!(rt; plan.tell(block)?.size, expected, "block {block}");
    }
    check_unknown(rt, plan, u16::try_from(sides.len())?)
}
