// Raises and questions whose spans touch, meet and hold one another.
use crate::calls::Call::*;
use crate::calls::Refused;
use crate::calls::Told::*;
use crate::kinds::run_on_each;
use std::test::Fail;

#[test]
fn at_the_edges(rt: HostRuntime) -> Result<(), Fail> {
    run_on_each(
        &rt,
        &[
            (Highest(0, 24), Ok(Height(0))),
            (Raise(0, 1, 3), Ok(Done)),
            (Highest(0, 1), Ok(Height(3))),
            (Highest(1, 24), Ok(Height(0))),
            (Raise(23, 24, 4), Ok(Done)),
            (Highest(23, 24), Ok(Height(4))),
            (Highest(1, 23), Ok(Height(0))),
            (Highest(0, 23), Ok(Height(3))),
            (Highest(1, 24), Ok(Height(4))),
            (Raise(0, 24, 4), Ok(Done)),
            (Highest(11, 12), Ok(Height(4))),
        ],
    )
}

#[test]
fn touching(rt: HostRuntime) -> Result<(), Fail> {
    run_on_each(
        &rt,
        &[
            (Raise(4, 8, 5), Ok(Done)),
            (Highest(0, 4), Ok(Height(0))),
            (Highest(8, 24), Ok(Height(0))),
            (Highest(3, 5), Ok(Height(5))),
            (Highest(7, 9), Ok(Height(5))),
            // on either side, at another height and at the same
            (Raise(2, 4, 2), Ok(Done)),
            (Raise(8, 10, 9), Ok(Done)),
            (Raise(10, 12, 9), Ok(Done)),
            (Highest(2, 8), Ok(Height(5))),
            (Highest(8, 12), Ok(Height(9))),
            (Highest(0, 4), Ok(Height(2))),
            (Highest(12, 24), Ok(Height(0))),
        ],
    )
}

// A span over part of another, over the first half and the last; then one inside, and one that holds them all.
#[test]
fn meeting(rt: HostRuntime) -> Result<(), Fail> {
    run_on_each(
        &rt,
        &[
            (Raise(6, 12, 2), Ok(Done)),
            (Raise(3, 8, 4), Ok(Done)),
            (Raise(10, 15, 3), Ok(Done)),
            (Highest(0, 24), Ok(Height(4))),
            (Highest(8, 10), Ok(Height(2))),
            (Highest(10, 24), Ok(Height(3))),
            (Raise(8, 10, 6), Ok(Done)),
            (Raise(4, 6, 5), Ok(Done)),
            (Highest(3, 8), Ok(Height(5))),
            (Raise(3, 15, 6), Ok(Done)),
            (Raise(2, 16, 8), Ok(Done)),
            (Highest(15, 16), Ok(Height(8))),
            (Highest(16, 24), Ok(Height(0))),
        ],
    )
}

// A span that ends, or begins, where another does; one span twice; and a single column.
#[test]
fn sharing_an_end(rt: HostRuntime) -> Result<(), Fail> {
    run_on_each(
        &rt,
        &[
            (Raise(5, 10, 1), Ok(Done)),
            (Raise(5, 7, 2), Ok(Done)),
            (Raise(8, 10, 3), Ok(Done)),
            (Highest(7, 8), Ok(Height(1))),
            (Raise(5, 10, 3), Ok(Done)),
            (Raise(5, 10, 3), Ok(Done)),
            (Raise(7, 8, 4), Ok(Done)),
            (Highest(5, 7), Ok(Height(3))),
            (Highest(7, 8), Ok(Height(4))),
            (Raise(5, 12, 4), Ok(Done)),
            (Raise(1, 10, 5), Ok(Done)),
            (Highest(10, 12), Ok(Height(4))),
        ],
    )
}

// Clearing: of a cleared skyline, of a raised one, and of one with no raises left.
#[test]
fn clearing(rt: HostRuntime) -> Result<(), Fail> {
    run_on_each(
        &rt,
        &[
            (Clear, Ok(Done)),
            (Raise(3, 9, 134217728), Ok(Done)),
            (Raise(0, 24, 1), Err(Refused(23, 0))),
            (Clear, Ok(Done)),
            (Raise(0, 24, 1), Ok(Done)),
            (UseUp, Ok(Done)),
            (Raise(0, 24, 1), Err(Refused(24, 0))),
            (Clear, Ok(Done)),
            (Highest(0, 24), Ok(Height(0))),
            (Raise(5, 6, 0), Ok(Done)),
            (UseUp, Ok(Done)),
            (Clear, Ok(Done)),
            (Clear, Ok(Done)),
            (Raise(5, 6, 2), Ok(Done)),
        ],
    )
}
