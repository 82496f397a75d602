#![tactic(auto)]
// A skyline that holds each raised run of columns in a record, in memory that the caller lends.
ghost use Rattle.std.specs.Prelude.{◌≤◌, min, length};
ghost use Rattle.stack.specs.Stacked.{held, room};

use skyline::spans::Run;
use stack::stack::Stack;

mod calls;

// The memory is always the one lent, and no record behind the first 65,536 is written.
#[derive(Drop)]
pub struct Placed<'a> {
    raised: Stack<'a, Run>,
    width: u32,
    ghost fits: { length (held raised) ≤ min (room raised) 65536 },
}
