#![tactic(auto)]
// A skyline that holds one number a column, in memory that the caller lends.
ghost use Rattle.std.specs.Prelude.{◌≡◌, ℕ, ◌<◌, ◌≤◌, min, length, slice_index, EachIndex};
ghost use Rattle.rules.specs.Skylines.{Largest, Fresh, Cleared, Raise};
ghost use Rattle.columns.specs.Heights.{lent, loan_of, columns_sky, raises_over, Levelled, KeptBehind};

use rules::refusals::Refusal;
use skyline::checks::{test_raise, test_span};
use skyline::skylines::{MOST_COLUMNS, MOST_RAISES, Skyline};
use skyline::spans::Span;

// The numbers behind the first 67,108,864 stay, and the memory is always the one lent: the clauses `behind` and `loan` tell a
// caller so, who has the memory back when the skyline ends.
#[derive(Drop)]
pub struct Columns<'a> {
    heights: &'a mut [u32],
    left: u32,
}

// Gives h to each number from a to b - 1.
fn level(heights: &mut [u32], a: usize, b: usize, h: u32)
    requires { (a ≤ b) × (b ≤ length heights.old) }
    ensures { Levelled heights.old heights.new a b h }
{
    heights[a..b].fill(h);
}

// The largest of the numbers, or 0 of none.
fn largest(heights: &[u32]) -> u32
    ensures bounds { EachIndex heights.now (λ k. slice_index heights.now k ≤ result) }
    ensures met { 0 < length heights.now → ((k : ℕ) × (k < length heights.now) × (slice_index heights.now k ≡ result)) }
{
    heights.iter().copied().max().unwrap_or(0)
}

impl<'a> Columns<'a> {
    // A cleared skyline with a column for each number of the memory, or for its first 67,108,864; the numbers behind stay.
    pub fn new(memory: &'a mut [u32]) -> Columns<'a>
        ensures fresh { Fresh (columns_sky result) (min (length memory.old) 67108864) (raises_over (length memory.old)) }
        ensures behind { KeptBehind memory.old (lent result) }
        ensures loan { loan_of result ≡ memory.entry.ghost_name }
    {
        let mut made = Columns {
            heights: memory,
            left: 0,
        };
        made.clear();
        made
    }

    // The largest height of a span's columns.
    fn tallest(&self, span: Span) -> u32
        requires { span.end ≤ length (lent self.now) }
        ensures { Largest (columns_sky self.now) span.start span.end result }
    {
        largest(&self.heights[span.start as usize..span.end as usize])
    }
}

impl Skyline for Columns<'_> {
    ghost meaning = { columns_sky };

    fn columns(&self) -> u32 {
        self.heights.len().min(MOST_COLUMNS as usize) as u32
    }

    fn raises(&self) -> u32 {
        if self.heights.is_empty() {
            0
        } else {
            MOST_RAISES
        }
    }

    fn raises_left(&self) -> u32 {
        self.left
    }

    fn clear(&mut self)
        ensures cleared { Cleared (columns_sky self.old) (columns_sky self.new) }
        ensures behind { KeptBehind (lent self.old) (lent self.new) }
        ensures loan { loan_of self.new ≡ loan_of self.old }
    {
        let columns = self.columns();
        level(self.heights, 0, columns as usize, 0);
        self.left = self.raises();
    }

    fn highest(&self, a: u32, b: u32) -> Result<u32, Refusal> {
        let span = test_span(a, b, self.columns())?;
        Ok(self.tallest(span))
    }

    fn raise(&mut self, a: u32, b: u32, h: u32) -> Result<(), Refusal>
        ensures raised { Raise (columns_sky self.old) (columns_sky self.new) a b h result }
        ensures behind { KeptBehind (lent self.old) (lent self.new) }
        ensures loan { loan_of self.new ≡ loan_of self.old }
    {
        let span = test_span(a, b, self.columns())?;
        test_raise(self.tallest(span), h, self.left)?;
        level(self.heights, a as usize, b as usize, h);
        self.left -= 1;
        Ok(())
    }
}
