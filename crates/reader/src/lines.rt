// The lines of a text that are used.
ghost use Rattle.std.specs.Prelude.{◌+◌, ◌≤◌, length};

mod stepping;

// A line that is used: its number, where it begins in the text, and its bytes.
#[derive(Clone, Copy)]
pub(crate) struct Used<'a> {
    pub(crate) number: u32,
    pub(crate) start: usize,
    pub(crate) bytes: &'a [u8],
    ghost near: { start + length bytes.now ≤ 65536 },
}

// What is left of a text, from a line's beginning on: its bytes, where they begin in the text, and the line's number.
#[derive(Drop)]
pub(crate) struct UsedLines<'a> {
    rest: &'a [u8],
    place: usize,
    number: u32,
    ghost near: { place + length rest.now ≤ 65536 },
    ghost counted: { number ≤ place + 1 },
}
