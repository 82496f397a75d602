// Calls on each of the three kinds.
use crate::calls::{Answer, Call, make};
use crate::painting::{Painting, WIDTH};
use columns::Columns;
use placed::Placed;
use skyline::skylines::Skyline;
use skyline::spans::Run;
use std::process::Abort;
use std::test::Fail;
use steps::steps::Steps;

// What the memory holds before a skyline is made over it.
pub const STALE_RUN: Run = Run {
    start: 0,
    end: 24,
    top: 7,
};

// The skyline has the columns, the raises and the heights of the painting.
fn check_same<S: Skyline>(rt: &impl Abort, skyline: &S, painting: &Painting) {
    assert_eq!(rt; skyline.columns(), WIDTH);
    assert_eq!(rt; skyline.raises(), painting.raises);
    assert_eq!(rt; skyline.raises_left(), painting.left);
    for (c, height) in painting.heights.iter().enumerate() {
        let c = c as u32;
        assert_eq!(rt; skyline.highest(c, c + 1).ok(), Some(*height));
    }
}

// The call gives the answer, and leaves the skyline as the painting is.
pub fn check_call<S: Skyline>(
    rt: &impl Abort,
    skyline: &mut S,
    call: Call,
    answer: Answer,
    painting: &Painting,
) -> Result<(), Fail> {
    assert_eq!(rt; make(skyline, call), answer, "{call:?}");
    check_same(rt, skyline, painting);
    Ok(())
}

// Makes the calls on the skyline and on a painting: both give the answers of the list, and agree after each call.
fn run<S: Skyline>(rt: &impl Abort, skyline: &mut S, calls: &[(Call, Answer)]) -> Result<(), Fail> {
    let mut painting = Painting::new(skyline.raises());
    check_same(rt, skyline, &painting);
    for (call, answer) in calls {
        assert_eq!(rt; painting.make(*call), *answer);
        check_call(rt, skyline, *call, *answer, &painting)?;
    }
    Ok(())
}

// The same over each kind, with 12 raises over placed and steps.
pub fn run_on_each(rt: &impl Abort, calls: &[(Call, Answer)]) -> Result<(), Fail> {
    run(rt, &mut Columns::new(&mut [7; 24]), calls)?;
    run(rt, &mut Placed::new(&mut [STALE_RUN; 12], WIDTH), calls)?;
    run(rt, &mut Steps::new(&mut [STALE_RUN; 25], WIDTH), calls)
}
