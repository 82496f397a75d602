// A long sequence of calls from a small generator of numbers, made on the three kinds at once.
use crate::calls::Call;
use crate::kinds::{STALE_RUN, check_call};
use crate::painting::{Painting, WIDTH};
use columns::Columns;
use placed::Placed;
use std::process::Abort;
use std::test::Fail;
use steps::steps::Steps;

#[derive(Clone, Copy)]
struct Numbers(u64);

impl Numbers {
    fn next(&mut self) -> u32 {
        self.0 = self
            .0
            .wrapping_mul(6364136223846793005)
            .wrapping_add(1442695040888963407);
        (self.0 >> 33) as u32
    }
}

// Mostly a raise that is allowed; at times a question, a clear, or a call with a wrong span or height.
fn next_call(numbers: &mut Numbers, painting: &Painting) -> Call {
    let a = numbers.next() % 24;
    let b = a + numbers.next() % 9;
    match numbers.next() % 128 {
        0 => Call::Clear,
        1..=30 => Call::Highest(a, b),
        31..=40 => Call::Raise(a, b, numbers.next() % 16),
        41..=45 => Call::Raise(a, b, 134_217_729),
        _ => {
            let h = numbers.next() % 4;
            Call::Raise(a, b, painting.largest(a, b).saturating_add(h))
        }
    }
}

// Makes one call after the other: each gives the answer that the painting gives, on each of the three.
fn run(
    rt: &impl Abort,
    columns: &mut Columns<'_>,
    placed: &mut Placed<'_>,
    steps: &mut Steps<'_>,
    painting: &mut Painting,
) -> Result<(), Fail> {
    let mut numbers = Numbers(1);
    for _ in 0..20_000 {
        let call = next_call(&mut numbers, painting);
        let answer = painting.make(call);
        check_call(rt, columns, call, answer, painting)?;
        check_call(rt, placed, call, answer, painting)?;
        check_call(rt, steps, call, answer, painting)?;
    }
    Ok(())
}

// All three have 65,536 raises.
#[test]
fn three_kinds(rt: HostRuntime) -> Result<(), Fail> {
    let mut heights = [7; 24];
    let mut records = vec![in rt.alloc(); STALE_RUN; 65_536]?;
    let mut runs = vec![in rt.alloc(); STALE_RUN; 131_073]?;
    run(
        &rt,
        &mut Columns::new(&mut heights),
        &mut Placed::new(&mut records, WIDTH),
        &mut Steps::new(&mut runs, WIDTH),
        &mut Painting::new(65_536),
    )
}
