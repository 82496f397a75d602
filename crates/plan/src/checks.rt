// The tests of the edits.
ghost use Rattle.std.specs.Prelude.{◌≡◌, ◌<◌, not, nat_le, None};
ghost use Rattle.rules.specs.declared.refusals.Refusal.TheVariants.{NoSuchBlock, Absent};
ghost use Rattle.rules.specs.Refusals.{answered, when};
ghost use Rattle.rules.specs.Plans.{block_count, present, bare};
ghost use Rattle.rules.specs.Edits.{edit_refusal, absent_refusal, pair_refusal, put_refusal};
ghost use Rattle.plan.specs.Meaning.{meant};

use crate::plans::Plan;
use rules::blocks::NONE;
use rules::edits::Edit;
use rules::refusals::Refusal;

#[tactic(auto, using(crate::proofs::Sounds::count_is, crate::proofs::Sounds::present_is, crate::proofs::Sounds::bare_is), unfolding(rules::specs::Edits::edit_refusal))]
impl Plan {
    pub(crate) fn len(&self) -> usize
        ensures { result ≡ block_count (meant self.now.table) }
    {
        self.table.blocks.len()
    }

    fn is_bare(&self) -> bool
        ensures { result ≡ bare (meant self.now.table).tree }
    {
        self.table.root == NONE
    }

    fn is_present(&self, i: u16) -> bool
        requires { i < block_count (meant self.now.table) }
        ensures { result ≡ present (meant self.now.table) i }
    {
        self.table.blocks[i as usize].present
    }

    // Refuses a number that is no block of the plan.
    fn test_known(&self, i: u16) -> Result<(), Refusal>
        ensures { result ≡ answered (when (nat_le (block_count (meant self.now.table)) i) (NoSuchBlock i) None) tt }
    {
        if i as usize >= self.len() {
            return Err(Refusal::NoSuchBlock(i));
        }
        Ok(())
    }

    // Refuses an absent block.
    fn test_standing(&self, i: u16) -> Result<(), Refusal>
        requires { i < block_count (meant self.now.table) }
        ensures { result ≡ answered (when (not (present (meant self.now.table) i)) (Absent i) None) tt }
    {
        if !self.is_present(i) {
            return Err(Refusal::Absent(i));
        }
        Ok(())
    }

    // Refuses a number that is no block, and then an absent block.
    pub(crate) fn test_present(&self, i: u16) -> Result<(), Refusal>
        ensures { result ≡ answered (absent_refusal (meant self.now.table) i) tt }
    {
        self.test_known(i)?;
        self.test_standing(i)
    }

    fn test_pair(&self, i: u16, j: u16) -> Result<(), Refusal>
        ensures { result ≡ answered (pair_refusal (meant self.now.table) i j) tt }
    {
        self.test_known(i)?;
        self.test_known(j)?;
        if i == j {
            return Err(Refusal::SameBlock(i));
        }
        self.test_standing(i)?;
        self.test_standing(j)
    }

    fn test_put(&self, i: u16, j: u16) -> Result<(), Refusal>
        ensures { result ≡ answered (put_refusal (meant self.now.table) i j) tt }
    {
        self.test_known(i)?;
        if self.is_present(i) {
            return Err(Refusal::Present(i));
        }
        if self.is_bare() {
            return Ok(());
        }
        self.test_present(j)
    }

    // The first refusal of an edit.
    pub(crate) fn refusal(&self, edit: Edit) -> Result<(), Refusal>
        ensures { result ≡ answered (edit_refusal (meant self.now.table) edit) tt }
    {
        match edit {
            Edit::Turn(i) | Edit::TakeOut(i) => self.test_present(i),
            Edit::Swap(i, j) | Edit::Move(i, j, _) => self.test_pair(i, j),
            Edit::PutIn(i, j, _) => self.test_put(i, j),
        }
    }
}
