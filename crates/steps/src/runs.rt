// Runs of columns in the front of lent memory.
ghost use Rattle.std.specs.Prelude.{◌≤◌, length};

use skyline::spans::Run;

mod ops;

// No stack of the crate `stack`, since runs in the middle are replaced in place.
#[derive(Drop)]
pub(crate) struct Runs<'a> {
    memory: &'a mut [Run],
    used: usize,
    ghost fits: { used ≤ length memory.now },
}
