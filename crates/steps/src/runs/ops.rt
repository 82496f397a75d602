// What runs in lent memory do.
ghost use Rattle.std.specs.Prelude.{◌≡◌, ◌+◌, ◌-◌, ◌<◌, ◌≤◌, [], length, drop};
ghost use Rattle.std.proofs.Math.Seq.{paste};
ghost use Rattle.steps.specs.Order.{run_at, pieces, replaced};
ghost use Rattle.steps.specs.Used.{in_use, room};

use super::Runs;
use skyline::spans::Run;

// Moves the runs at the places from to past - 1, so that the first of them stands at to. Where it does already, nothing is written.
fn shift(runs: &mut [Run], from: usize, past: usize, to: usize)
    requires forward { from ≤ past }
    requires within { past ≤ length runs.old }
    requires room { to + (past - from) ≤ length runs.old }
    ensures size { length runs.new ≡ length runs.old }
    ensures moved { runs.new ≡ paste runs.old to (drop from runs.old) (past - from) }
{
    if from != to {
        runs.copy_within(from..past, to);
    }
}

#[tactic(auto, unfolding(crate::specs::Used::in_use, crate::specs::Used::room))]
impl<'a> Runs<'a> {
    // No runs in use of that memory.
    pub(crate) fn over(memory: &'a mut [Run]) -> Runs<'a>
        ensures none { in_use result ≡ [] }
        ensures room { room result ≡ length memory.old }
    {
        Runs { memory, used: 0 }
    }

    // How many runs the memory has room for.
    pub(crate) fn room(&self) -> usize
        ensures { result ≡ room self.now }
    {
        self.memory.len()
    }

    // The runs in use.
    pub(crate) fn in_use(&self) -> &[Run]
        ensures { result.now ≡ in_use self.now }
    {
        &self.memory[..self.used]
    }

    // Puts the new runs in the place of those from first to past - 1.
    pub(crate) fn replace(&mut self, first: usize, past: usize, new: &[Run])
        requires forward { first ≤ past }
        requires within { past ≤ length (in_use self.old) }
        requires room { (first + length new.now) + (length (in_use self.old) - past) ≤ room self.old }
        ensures room { room self.new ≡ room self.old }
        ensures used { length (in_use self.new) ≡ (first + length new.now) + (length (in_use self.old) - past) }
        ensures runs { in_use self.new ≡ replaced first past new.now (in_use self.old) }
    {
        let rest = first + new.len();
        let used = self.used;
        shift(self.memory, past, used, rest);
        self.memory[first..rest].copy_from_slice(new);
        self.used = rest + (used - past);
    }

    // Puts a raised run in the place of those from first to last, of which the first and the last may keep a rest. Gives the place of
    // the run behind it.
    pub(crate) fn put(&mut self, first: usize, last: usize, raised: Run) -> usize
        requires forward { first ≤ last }
        requires within { last < length (in_use self.old) }
        requires room { length (in_use self.old) + 2 ≤ room self.old }
        ensures room { room self.new ≡ room self.old }
        ensures used { length (in_use self.new) ≤ length (in_use self.old) + 2 }
        ensures runs { in_use self.new ≡ replaced first (last + 1) (pieces (run_at (in_use self.old) first) (run_at (in_use self.old) last) raised) (in_use self.old) }
    {
        let runs = self.in_use();
        let (left, right) = (runs[first], runs[last]);
        let before = Run {
            end: raised.start,
            ..left
        };
        let behind = Run {
            start: raised.end,
            ..right
        };
        // a rest of no columns is left out
        let from = usize::from(left.start >= raised.start);
        let past = 2 + usize::from(raised.end < right.end);
        self.replace(first, last + 1, &[before, raised, behind][from..past]);
        first + 2 - from
    }
}
