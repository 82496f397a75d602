// The plan K: its reports, and how they come back.
use crate::places::Place::*;
use crate::samples::sample_k;
use crate::telling::check_reports;
use crate::trying::begun;
use plan::Report;
use rules::blocks::{Children, Letter, Size};
use rules::edits::Edit::*;
use std::test::Fail;

fn report(width: u32, height: u32, left: u16, right: u16) -> Report {
    Report {
        size: Size { width, height },
        children: Children { left, right },
        letter: Letter::Free,
        kept: true,
    }
}

pub fn reports_of_k() -> [Report; 5] {
    [
        report(4, 3, 1, 2),
        report(3, 2, 3, 4),
        report(2, 4, 65535, 65535),
        report(2, 2, 65535, 65535),
        report(5, 1, 65535, 65535),
    ]
}

#[test]
fn loaded(rt: HostRuntime) -> Result<(), Fail> {
    let plan = sample_k(&rt, rt.alloc())?;
    check_reports(&rt, &plan, &reports_of_k())?;
    assert_eq!(rt; plan.kept(), 0);
    Ok(())
}

// Without 0 the root is 2, with 1 for its left child; undoing gives K again.
#[test]
fn root_out_and_back(rt: HostRuntime) -> Result<(), Fail> {
    let without_0 = [Out, Both(3, 4), Left(1), Leaf, Leaf];
    let plan = begun(&rt, sample_k(&rt, rt.alloc())?, TakeOut(0), &without_0)?.undo();
    check_reports(&rt, &plan, &reports_of_k())?;
    assert_eq!(rt; plan.kept(), 0);
    Ok(())
}
