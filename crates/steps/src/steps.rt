// A skyline as runs of equal height, in the front of lent memory: from left to right, each beginning where the one before ends.
ghost use Rattle.std.specs.Prelude.{◌≡◌, ◌+◌, ◌*◌, ◌≤◌, true, length};
ghost use Rattle.steps.specs.Order.{in_order};
ghost use Rattle.steps.specs.Used.{in_use, room};

use crate::runs::Runs;

mod ops;
mod search;

// Each raise left has room for two more runs. near is the place that the last raise left for the run behind it, where the next span
// often starts: a guess, tested where it is used.
#[derive(Drop)]
pub struct Steps<'a> {
    runs: Runs<'a>,
    columns: u32,
    left: u32,
    near: usize,
    ghost narrow: { columns ≤ 67108864 },
    ghost room: { length (in_use runs) + 2 * left ≤ room runs },
    ghost ordered: { in_order 0 (in_use runs) columns ≡ true },
}
