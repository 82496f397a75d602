// The line of one block.
ghost use Rattle.std.specs.Prelude.{◌≡◌, ◌≤◌, true, length, is_some, ◌==◌};
ghost use Rattle.names.specs.Entries.{name_of};
ghost use Rattle.writer.specs.Bytes.{ahead, loan, Added};
ghost use Rattle.writer.specs.Texts.{line, line_of};

use crate::pen::{Pen, digit_count};
use names::entries::Entry;
use names::name_of;
use rules::placements::Placement;

fn is_absent(place: Placement) -> bool
    ensures { result ≡ (place.width == 0) }
{
    place.width == 0
}

// Writes a name, x and y.
#[tactic(auto, using(crate::proofs::Spans::length_line))]
fn write_named(pen: &mut Pen<'_>, name: &[u8], x: u32, y: u32)
    requires { length (line name.now x y) ≤ length (ahead pen.old) }
    ensures added { Added pen.old (line name.now x y) pen.new }
    ensures loan { loan pen.new ≡ loan pen.old }
{
    pen.bytes(name);
    pen.bytes(b" ");
    pen.decimal(x);
    pen.bytes(b" ");
    pen.decimal(y);
    pen.bytes(b"\n");
}

// Writes the line of a block, if it is present.
#[tactic(auto, using(crate::proofs::Spans::named_line, crate::proofs::Spans::absent_line, crate::proofs::Adding::added_none))]
pub(crate) fn write_line(pen: &mut Pen<'_>, text: &[u8], entry: Entry, place: Placement)
    requires named { is_some (name_of text.now entry) ≡ true }
    requires room { length (line_of text.now entry place) ≤ length (ahead pen.old) }
    ensures added { Added pen.old (line_of text.now entry place) pen.new }
    ensures loan { loan pen.new ≡ loan pen.old }
{
    if is_absent(place) {
        return;
    }
    let Some(name) = name_of(text, entry) else {
        unreachable()
    };
    write_named(pen, name, place.x, place.y);
}

// The length of a block's line, 0 for an absent block.
#[tactic(auto, using(crate::proofs::Spans::absent_line, crate::proofs::Spans::length_present_line))]
pub(crate) fn line_len(text: &[u8], entry: Entry, place: Placement) -> usize
    requires { is_some (name_of text.now entry) ≡ true }
    ensures { result ≡ length (line_of text.now entry place) }
{
    if is_absent(place) {
        return 0;
    }
    entry.len as usize + digit_count(place.x) + digit_count(place.y) + 3
}
