// What a skyline is when it is made: C, R, and every height 0.
use crate::calls::Call::*;
use crate::calls::Told::*;
use crate::calls::{Answer, Call, Refused, make};
use crate::kinds::STALE_RUN;
use columns::Columns;
use placed::Placed;
use skyline::skylines::Skyline;
use std::process::Abort;
use std::test::Fail;
use steps::steps::Steps;

fn check_answers<S: Skyline>(rt: &impl Abort, skyline: &mut S, calls: &[(Call, Answer)]) {
    for (call, answer) in calls {
        assert_eq!(rt; make(skyline, *call), *answer);
    }
}

// A skyline has c columns, all of height 0, and r raises, all of them left. One of no columns refuses each span.
fn check_made<S: Skyline>(rt: &impl Abort, skyline: &mut S, c: u32, r: u32) -> Result<(), Fail> {
    assert_eq!(rt;
        (skyline.columns(), skyline.raises(), skyline.raises_left()),
        (c, r, r)
    );
    let all = if c == 0 {
        Err(Refused(11, 0))
    } else {
        Ok(Height(0))
    };
    let past = c.saturating_add(1);
    let calls = [
        (Highest(0, c), all),
        (Highest(0, past), Err(Refused(11, 0))),
        (Highest(c, c), Err(Refused(11, 0))),
        (Raise(0, past, 0), Err(Refused(11, 0))),
        (Raise(0, past, 134_217_729), Err(Refused(11, 0))),
        (Clear, Ok(Done)),
        (Raise(c, past, 0), Err(Refused(11, 0))),
    ];
    check_answers(rt, skyline, &calls);
    Ok(())
}

// The length of the memory; C and R.
#[test]
fn columns_made(rt: HostRuntime) -> Result<(), Fail> {
    for (memory, c, r) in [
        (0, 0, 0),
        (1, 1, 65_536),
        (2, 2, 65_536),
        (70_000, 70_000, 65_536),
    ] {
        let mut heights = vec![in rt.alloc(); 7u32; memory]?;
        check_made(&rt, &mut Columns::new(&mut heights), c, r)?;
    }
    Ok(())
}

// The number of records and the columns told; C and R.
#[test]
fn placed_made(rt: HostRuntime) -> Result<(), Fail> {
    let cases = [
        (0, 10, 0, 0),
        (0, 4_294_967_295, 0, 0),
        (1, 0, 0, 1),
        (1, 10, 10, 1),
        (5, 67_108_864, 67_108_864, 5),
        (5, 67_108_865, 67_108_864, 5),
        (5, 4_294_967_295, 67_108_864, 5),
        (65_536, 10, 10, 65_536),
        (65_537, 10, 10, 65_536),
    ];
    for (memory, told, c, r) in cases {
        let mut records = vec![in rt.alloc(); STALE_RUN; memory]?;
        check_made(&rt, &mut Placed::new(&mut records, told), c, r)?;
    }
    Ok(())
}

#[test]
fn steps_made(rt: HostRuntime) -> Result<(), Fail> {
    let cases = [
        (0, 10, 0, 0),
        (0, 4_294_967_295, 0, 0),
        (1, 0, 0, 0),
        (1, 10, 10, 0),
        (2, 10, 10, 0),
        (3, 10, 10, 1),
        (3, 0, 0, 1),
        (4, 10, 10, 1),
        (5, 10, 10, 2),
        (1_024, 67_108_864, 67_108_864, 511),
        (1_025, 67_108_864, 67_108_864, 512),
        (1_026, 67_108_865, 67_108_864, 512),
        (1_027, 4_294_967_295, 67_108_864, 513),
        (131_072, 10, 10, 65_535),
        (131_073, 10, 10, 65_536),
        (131_075, 10, 10, 65_536),
    ];
    for (memory, told, c, r) in cases {
        let mut runs = vec![in rt.alloc(); STALE_RUN; memory]?;
        check_made(&rt, &mut Steps::new(&mut runs, told), c, r)?;
    }
    Ok(())
}

// Calls on a skyline of 67,108,864 columns.
const AT_THE_LAST_COLUMN: [(Call, Answer); 10] = [
    (Highest(0, 67_108_864), Ok(Height(0))),
    (Raise(67_108_863, 67_108_864, 5), Ok(Done)),
    (Highest(67_108_863, 67_108_864), Ok(Height(5))),
    (Highest(0, 67_108_864), Ok(Height(5))),
    (Highest(0, 67_108_863), Ok(Height(0))),
    (Highest(67_108_863, 67_108_865), Err(Refused(11, 0))),
    (Raise(67_108_863, 67_108_865, 9), Err(Refused(11, 0))),
    (Raise(0, 67_108_864, 4), Err(Refused(23, 0))),
    (Raise(0, 67_108_864, 134_217_728), Ok(Done)),
    (Highest(0, 1), Ok(Height(134_217_728))),
];

// Placed and steps are told one column more; columns has one number more, which is left alone.
#[test]
fn most_columns(rt: HostRuntime) -> Result<(), Fail> {
    let calls = &AT_THE_LAST_COLUMN;
    check_answers(
        &rt,
        &mut Placed::new(&mut [STALE_RUN; 2], 67_108_865),
        calls,
    );
    check_answers(&rt, &mut Steps::new(&mut [STALE_RUN; 5], 67_108_865), calls);
    let mut heights = vec![in rt.alloc(); 7u32; 67_108_865]?;
    check_answers(&rt, &mut Columns::new(&mut heights), calls);
    assert_eq!(rt; heights.last().copied(), Some(7));
    Ok(())
}
