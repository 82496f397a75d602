// The tests of the arguments of a skyline's calls, in their order.
ghost use Rattle.skyline.specs.Tests.{SpanTested, RaiseTested};

use crate::skylines::GREATEST_HEIGHT;
use crate::spans::Span;
use rules::refusals::Refusal;

// The span from a to b, tested on a skyline of so many columns.
pub fn test_span(a: u32, b: u32, columns: u32) -> Result<Span, Refusal>
    ensures { SpanTested a b columns result }
{
    if a >= b || b > columns {
        return Err(Refusal::WrongSpan);
    }
    Ok(Span { start: a, end: b })
}

// The tests of a raise to h over a span whose largest height is `highest`, with so many raises left.
pub fn test_raise(highest: u32, h: u32, left: u32) -> Result<(), Refusal>
    ensures { RaiseTested highest h left result }
{
    if h > GREATEST_HEIGHT {
        return Err(Refusal::RaisedTooHigh);
    }
    if h < highest {
        return Err(Refusal::BelowHighest);
    }
    if left == 0 {
        return Err(Refusal::NoRaiseLeft);
    }
    Ok(())
}
