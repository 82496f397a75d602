// Which runs a span meets.
ghost use Rattle.std.specs.Prelude.{◌-◌, ◌<◌, ◌≤◌, length};
ghost use Rattle.steps.specs.Order.{run_at, Reaches, Holds};

use skyline::spans::Run;

// The place of the run that holds the column, by halves.
fn place_of(runs: &[Run], column: u32) -> usize
    requires { Reaches runs.now column }
    ensures { Holds runs.now result column }
{
    runs.partition_point(|run| run.end <= column)
}

// The place of the run that holds the column: near, if that run does, else by halves.
pub(super) fn place_near(runs: &[Run], near: usize, column: u32) -> usize
    requires { Reaches runs.now column }
    ensures { Holds runs.now result column }
{
    match runs.get(near) {
        Some(run) if run.start <= column && column < run.end => near,
        _ => place_of(runs, column),
    }
}

// The place of the run that holds the last column before b, by a walk from the run at place first, which starts before b.
pub(super) fn last_before(runs: &[Run], first: usize, b: u32) -> usize
    requires within { first < length runs.now }
    requires starts { (run_at runs.now first).start < b }
    requires reach { Reaches runs.now (b - 1) }
    ensures forward { first ≤ result }
    ensures last { Holds runs.now result (b - 1) }
{
    let walked = runs[first..].iter().position(|run| b <= run.end);
    first + walked.unwrap_or(0)
}
