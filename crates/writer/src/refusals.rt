// The line of a refusal. It is written word by word: `write!` of its `Display` is not known to succeed where there is room.
ghost use Rattle.std.specs.Prelude.{◌≡◌, ◌≤◌, length};
ghost use Rattle.writer.specs.Bytes.{ahead, loan, Added};
ghost use Rattle.writer.specs.Texts.{refused, refusal_line};
ghost use Rattle.writer.specs.Answers.{too_short, Writes};

use crate::pen::{Pen, digit_count};
use rules::refusals::Refusal;

#[tactic(auto, using(crate::proofs::Spans::length_refused))]
fn refused_len(number: u32, place: u32) -> usize
    ensures { result ≡ length (refused number place) }
{
    digit_count(number) + digit_count(place) + 13
}

#[tactic(auto, using(crate::proofs::Spans::length_refused))]
fn write_refused(pen: &mut Pen<'_>, number: u32, place: u32)
    requires { length (refused number place) ≤ length (ahead pen.old) }
    ensures added { Added pen.old (refused number place) pen.new }
    ensures loan { loan pen.new ≡ loan pen.old }
{
    pen.bytes(b"refused ");
    pen.decimal(number);
    pen.bytes(b" at ");
    pen.decimal(place);
    pen.bytes(b"\n");
}

// Writes the line `refused N at P`; answers its length, and leaves the bytes behind it. Where it does not fit it leaves all bytes.
pub fn write_refusal(refusal: Refusal, out: &mut [u8]) -> Result<usize, Refusal>
    ensures { Writes (too_short (refusal_line refusal) (length out.old)) (refusal_line refusal) out.old out.new result }
{
    let number = u32::from(refusal.number());
    let place = refusal.place();
    if out.len() < refused_len(number, place) {
        return Err(Refusal::MemoryTooShort);
    }
    let mut pen = Pen::over(out);
    write_refused(&mut pen, number, place);
    Ok(pen.len())
}
