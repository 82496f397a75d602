// What a skyline of placed runs answers.
ghost use Rattle.std.specs.Prelude.{◌≡◌, ◌<◌, min, length};
ghost use Rattle.stack.specs.Stacked.{room};
ghost use Rattle.rules.specs.Skylines.{Largest, Fresh, Cleared, Raise};
ghost use Rattle.placed.specs.Meaning.{lent, loan_of, used, placed_sky, columns_over, OneMore, KeptBehind, Written};

use crate::Placed;
use rules::refusals::Refusal;
use skyline::checks::{test_raise, test_span};
use skyline::skylines::{MOST_COLUMNS, MOST_RAISES, Skyline};
use skyline::spans::{Run, Span, highest_top};
use stack::stack::Stack;

impl<'a> Placed<'a> {
    // A cleared skyline of so many columns, at most 67,108,864, with a raise for each record, at most 65,536; without records
    // it has no columns. The records stay.
    pub fn new(records: &'a mut [Run], columns: u32) -> Placed<'a>
        ensures fresh { Fresh (placed_sky result) (columns_over (length records.old) columns) (min (length records.old) 65536) }
        ensures stay { lent result ≡ records.old }
        ensures loan { loan_of result ≡ records.entry.ghost_name }
    {
        Placed {
            raised: Stack::over(records),
            width: columns,
        }
    }

    // The largest height of a span's columns.
    fn tallest(&self, span: Span) -> u32
        ensures { Largest (placed_sky self.now) span.start span.end result }
    {
        highest_top(self.raised.as_slice(), span.start, span.end)
    }

    // Puts the run into the first record that is not used.
    fn place(&mut self, run: Run)
        requires { used self.old < min (room self.old.raised) 65536 }
        ensures more { OneMore self.old run self.new }
        ensures loan { loan_of self.new ≡ loan_of self.old }
    {
        let _ = self.raised.push(run);
    }
}

impl Skyline for Placed<'_> {
    ghost meaning = { placed_sky };

    fn columns(&self) -> u32 {
        if self.raised.room() == 0 {
            0
        } else {
            self.width.min(MOST_COLUMNS)
        }
    }

    fn raises(&self) -> u32 {
        self.raised.room().min(MOST_RAISES as usize) as u32
    }

    fn raises_left(&self) -> u32 {
        self.raises() - self.raised.len() as u32
    }

    fn clear(&mut self)
        ensures cleared { Cleared (placed_sky self.old) (placed_sky self.new) }
        ensures stay { lent self.new ≡ lent self.old }
        ensures loan { loan_of self.new ≡ loan_of self.old }
    {
        self.raised.clear();
    }

    fn highest(&self, a: u32, b: u32) -> Result<u32, Refusal> {
        let span = test_span(a, b, self.columns())?;
        Ok(self.tallest(span))
    }

    fn raise(&mut self, a: u32, b: u32, h: u32) -> Result<(), Refusal>
        ensures raised { Raise (placed_sky self.old) (placed_sky self.new) a b h result }
        ensures behind { KeptBehind (lent self.old) (lent self.new) }
        ensures written { Written self.old self.new a b h result }
        ensures loan { loan_of self.new ≡ loan_of self.old }
    {
        let span = test_span(a, b, self.columns())?;
        test_raise(self.tallest(span), h, self.raises_left())?;
        self.place(Run {
            start: a,
            end: b,
            top: h,
        });
        Ok(())
    }
}
