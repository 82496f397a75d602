// Refused calls: their numbers, and their order where several tests hold. None alters a skyline.
use crate::calls::Call::*;
use crate::calls::Refused;
use crate::calls::Told::*;
use crate::kinds::run_on_each;
use std::test::Fail;

#[test]
fn wrong_spans(rt: HostRuntime) -> Result<(), Fail> {
    run_on_each(
        &rt,
        &[
            (Raise(2, 5, 6), Ok(Done)),
            (Highest(0, 0), Err(Refused(11, 0))),
            (Highest(3, 3), Err(Refused(11, 0))),
            (Highest(24, 24), Err(Refused(11, 0))),
            (Highest(4, 3), Err(Refused(11, 0))),
            (Highest(0, 25), Err(Refused(11, 0))),
            (Highest(24, 25), Err(Refused(11, 0))),
            (Highest(4294967295, 4294967295), Err(Refused(11, 0))),
            (Highest(4294967295, 0), Err(Refused(11, 0))),
            (Highest(0, 4294967295), Err(Refused(11, 0))),
            (Raise(0, 0, 9), Err(Refused(11, 0))),
            (Raise(3, 3, 9), Err(Refused(11, 0))),
            (Raise(24, 24, 9), Err(Refused(11, 0))),
            (Raise(4, 3, 9), Err(Refused(11, 0))),
            (Raise(0, 25, 9), Err(Refused(11, 0))),
            (Raise(24, 25, 9), Err(Refused(11, 0))),
            (Raise(0, 4294967295, 9), Err(Refused(11, 0))),
            (Raise(4294967295, 0, 9), Err(Refused(11, 0))),
        ],
    )
}

#[test]
fn too_high(rt: HostRuntime) -> Result<(), Fail> {
    run_on_each(
        &rt,
        &[
            (Raise(0, 24, 134217729), Err(Refused(12, 0))),
            (Raise(3, 4, 4294967295), Err(Refused(12, 0))),
            // the greatest height itself is no fault, nor is a second raise to it
            (Raise(3, 4, 134217728), Ok(Done)),
            (Raise(0, 24, 134217728), Ok(Done)),
            (Raise(0, 24, 134217729), Err(Refused(12, 0))),
            (Highest(0, 24), Ok(Height(134217728))),
        ],
    )
}

#[test]
fn below_highest(rt: HostRuntime) -> Result<(), Fail> {
    run_on_each(
        &rt,
        &[
            (Raise(2, 4, 5), Ok(Done)),
            // over the span, over a part of it, over its first and its last column
            (Raise(2, 4, 4), Err(Refused(23, 0))),
            (Raise(3, 4, 0), Err(Refused(23, 0))),
            (Raise(0, 3, 4), Err(Refused(23, 0))),
            (Raise(3, 9, 4), Err(Refused(23, 0))),
            (Raise(0, 24, 4), Err(Refused(23, 0))),
            // beside it, and at its height
            (Raise(0, 2, 0), Ok(Done)),
            (Raise(3, 5, 5), Ok(Done)),
            (Raise(4, 6, 4), Err(Refused(23, 0))),
        ],
    )
}

#[test]
fn no_raise_left(rt: HostRuntime) -> Result<(), Fail> {
    run_on_each(
        &rt,
        &[
            (Raise(2, 4, 5), Ok(Done)),
            (UseUp, Ok(Done)),
            (Raise(2, 4, 5), Err(Refused(24, 0))),
            (Raise(0, 1, 0), Err(Refused(24, 0))),
            (Raise(0, 24, 134217728), Err(Refused(24, 0))),
            (Highest(0, 24), Ok(Height(5))),
        ],
    )
}

// 11 before 12, 23 and 24; 12 and 23 before 24. 12 and 23 never hold together.
#[test]
fn several_faults(rt: HostRuntime) -> Result<(), Fail> {
    run_on_each(
        &rt,
        &[
            (Raise(2, 4, 5), Ok(Done)),
            (Raise(3, 3, 134217729), Err(Refused(11, 0))),
            (Raise(0, 25, 134217729), Err(Refused(11, 0))),
            (Raise(2, 25, 4), Err(Refused(11, 0))),
            (Raise(4, 2, 4), Err(Refused(11, 0))),
            (UseUp, Ok(Done)),
            (Highest(3, 25), Err(Refused(11, 0))),
            (Raise(3, 3, 9), Err(Refused(11, 0))),
            (Raise(3, 3, 134217729), Err(Refused(11, 0))),
            (Raise(2, 25, 4), Err(Refused(11, 0))),
            (Raise(2, 4, 134217729), Err(Refused(12, 0))),
            (Raise(2, 4, 4), Err(Refused(23, 0))),
            (Raise(0, 3, 0), Err(Refused(23, 0))),
        ],
    )
}
