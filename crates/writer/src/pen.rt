// A pen over the caller's bytes: the bytes in front of it are written, and it writes on straight behind them.
ghost use Rattle.std.specs.Prelude.{◌≤◌, length};

mod writing;

pub(crate) use writing::digit_count;

#[derive(Drop)]
pub(crate) struct Pen<'a> {
    out: &'a mut [u8],
    at: usize,
    ghost within: { at ≤ length out.now },
}
