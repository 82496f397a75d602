// The report of a block.
ghost use Rattle.std.specs.Prelude.{◌≡◌};
ghost use Rattle.plan.specs.Meaning.{meant};
ghost use Rattle.plan.specs.Reports.{reported};

use crate::plans::Plan;
use crate::reports::Report;
use rules::refusals::Refusal;

impl Plan {
    pub(crate) fn report(&self, i: u16) -> Result<Report, Refusal>
        ensures { result ≡ reported (meant self.now.table) i }
    {
        self.test_present(i)?;
        let b = self.table.blocks[i as usize];
        Ok(Report {
            size: b.size,
            children: b.children,
            letter: b.letter,
            kept: self.table.is_letter_kept(b.letter, i),
        })
    }
}
