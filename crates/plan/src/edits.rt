// What the edits do to the plan's table.
ghost use Rattle.std.specs.Prelude.{◌≡◌, None};
ghost use Rattle.rules.specs.Edits.{edited, edit_refusal, absent_refusal, pair_refusal, put_refusal};
ghost use Rattle.plan.specs.Meaning.{meant};

use crate::plans::Plan;
use rules::edits::{Edit, Side};

impl Plan {
    fn turn(&mut self, i: u16)
        requires { absent_refusal (meant self.old.table) i ≡ None }
        ensures { meant self.new.table ≡ edited (Edit.Turn i) (meant self.old.table) }
    {
        self.table.turn(i);
    }

    fn swap(&mut self, i: u16, j: u16)
        requires { pair_refusal (meant self.old.table) i j ≡ None }
        ensures { meant self.new.table ≡ edited (Edit.Swap i j) (meant self.old.table) }
    {
        self.table.swap(i, j);
    }

    fn take_out(&mut self, i: u16)
        requires { absent_refusal (meant self.old.table) i ≡ None }
        ensures { meant self.new.table ≡ edited (Edit.TakeOut i) (meant self.old.table) }
    {
        self.table.take_out(i);
    }

    fn put_in(&mut self, i: u16, j: u16, side: Side)
        requires { put_refusal (meant self.old.table) i j ≡ None }
        ensures { meant self.new.table ≡ edited (Edit.PutIn i j side) (meant self.old.table) }
    {
        self.table.put_in(i, j, side);
    }

    // Performs an edit that is not refused.
    #[tactic(auto, unfolding(rules::specs::Edits::edit_refusal, rules::specs::Edits::edited))]
    pub(crate) fn perform(&mut self, edit: Edit)
        requires { edit_refusal (meant self.old.table) edit ≡ None }
        ensures { meant self.new.table ≡ edited edit (meant self.old.table) }
    {
        match edit {
            Edit::Turn(i) => self.turn(i),
            Edit::Swap(i, j) => self.swap(i, j),
            Edit::TakeOut(i) => self.take_out(i),
            Edit::PutIn(i, j, side) => self.put_in(i, j, side),
            Edit::Move(i, j, side) => {
                self.take_out(i);
                self.put_in(i, j, side);
            }
        }
    }
}
