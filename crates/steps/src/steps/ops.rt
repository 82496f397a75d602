// What the skyline of runs does.
ghost use Rattle.std.specs.Prelude.{◌≡◌, ℕ, ◌+◌, ◌*◌, ◌<◌, ◌≤◌, min, length};
ghost use Rattle.rules.specs.Skylines.{Fresh, Largest};
ghost use Rattle.steps.specs.Order.{Over};
ghost use Rattle.steps.specs.Used.{room};
ghost use Rattle.steps.specs.Meaning.{runs_of, sky_of, columns_over, raises_over, Put};

use super::Steps;
use super::search::{last_before, place_near};
use crate::runs::Runs;
use rules::refusals::Refusal;
use skyline::checks::{test_raise, test_span};
use skyline::skylines::{MOST_COLUMNS, MOST_RAISES, Skyline};
use skyline::spans::{Run, Span, highest_top};

// The runs that a span meets, from place first to place last, and the highest of their tops.
#[derive(Clone, Copy)]
struct Met {
    first: usize,
    last: usize,
    highest: u32,
}

impl Skyline for Steps<'_> {
    ghost meaning = { λ s. sky_of s };

    fn columns(&self) -> u32 {
        self.columns
    }

    fn raises(&self) -> u32 {
        (self.runs.room().saturating_sub(1) / 2).min(MOST_RAISES as usize) as u32
    }

    fn raises_left(&self) -> u32 {
        self.left
    }

    #[tactic(auto, using(crate::proofs::Edges::some_runs))]
    fn clear(&mut self) {
        let columns = self.columns;
        let raises = self.raises();
        self.flatten(columns, raises);
    }

    fn highest(&self, a: u32, b: u32) -> Result<u32, Refusal> {
        Ok(self.meet(test_span(a, b, self.columns)?).highest)
    }

    fn raise(&mut self, a: u32, b: u32, h: u32) -> Result<(), Refusal> {
        let met = self.meet(test_span(a, b, self.columns)?);
        test_raise(met.highest, h, self.left)?;
        self.left -= 1;
        let raised = Run {
            start: a,
            end: b,
            top: h,
        };
        self.put(met.first, met.last, raised);
        Ok(())
    }
}

impl<'a> Steps<'a> {
    // A cleared skyline of so many columns, at most 67,108,864, and none without memory. R is half of one less than the number of
    // runs that the memory has room for, at most 65,536.
    #[tactic(auto, using(crate::proofs::Edges::none_ordered))]
    pub fn new(runs: &'a mut [Run], columns: u32) -> Steps<'a>
        ensures { Fresh (sky_of result) (columns_over (length runs.old) columns) (raises_over (length runs.old)) }
    {
        let columns = if runs.is_empty() {
            0
        } else {
            columns.min(MOST_COLUMNS)
        };
        let mut made = Steps {
            runs: Runs::over(runs),
            columns: 0,
            left: 0,
            near: 0,
        };
        let raises = made.raises();
        made.flatten(columns, raises);
        made
    }

    // Makes one run of height 0 of so many columns, none of no columns, and allows so many raises.
    fn flatten(&mut self, columns: u32, left: u32)
        requires narrow { columns ≤ 67108864 }
        requires room { min columns 1 + 2 * left ≤ room self.old.runs }
        ensures columns { (sky_of self.new).columns ≡ columns }
        ensures raises { (sky_of self.new).raises ≡ (sky_of self.old).raises }
        ensures left { (sky_of self.new).left ≡ left }
        ensures height { (c : ℕ) → c < columns → (sky_of self.new).height c ≡ 0 }
    {
        let flat = [Run {
            start: 0,
            end: columns,
            top: 0,
        }];
        let count = columns.min(1) as usize;
        let used = self.runs.in_use().len();
        self.runs.replace(0, used, &flat[..count]);
        self.columns = columns;
        self.left = left;
    }

    // Finds the runs that a span meets, and the largest height of its columns.
    fn meet(&self, span: Span) -> Met
        requires { span.end ≤ self.now.columns }
        ensures over { Over (runs_of self.now) result.first result.last span.start span.end }
        ensures largest { Largest (sky_of self.now) span.start span.end result.highest }
    {
        let runs = self.runs.in_use();
        let first = place_near(runs, self.near, span.start);
        let last = last_before(runs, first, span.end);
        let highest = highest_top(&runs[first..=last], span.start, span.end);
        Met {
            first,
            last,
            highest,
        }
    }

    // Puts a raised run in the place of the runs that it meets, from first to last. There may be two more runs then.
    fn put(&mut self, first: usize, last: usize, raised: Run)
        requires nonempty { raised.start < raised.end }
        requires over { Over (runs_of self.old) first last raised.start raised.end }
        requires room { (length (runs_of self.old) + 2) + 2 * self.old.left ≤ room self.old.runs }
        ensures columns { (sky_of self.new).columns ≡ (sky_of self.old).columns }
        ensures raises { (sky_of self.new).raises ≡ (sky_of self.old).raises }
        ensures left { (sky_of self.new).left ≡ (sky_of self.old).left }
        ensures put { Put (sky_of self.old).height (sky_of self.new).height raised }
    {
        self.near = self.runs.put(first, last, raised);
    }
}
