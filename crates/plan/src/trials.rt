// Settled plans and trials: each call with its plain equation, and with the clause that histories go on, for every list of
// calls that led here.
ghost use Rattle.std.specs.Prelude.{◌≡◌, ◌+◌, min, List, [], ◌∷◌, ◌++◌, length, IfOk, if◌then◌else◌};
ghost use Rattle.rules.specs.Refusals.{answered};
ghost use Rattle.rules.specs.Plans.{new_plan};
ghost use Rattle.rules.specs.Edits.{edit_refusal};
ghost use Rattle.rules.specs.Loads.{is_some};
ghost use Rattle.rules.specs.Book.{Call, test, begin, keep, undo};
ghost use Rattle.theorems.specs.Steps.{plan_begun, count_begun};
ghost use Rattle.loading.specs.Told.{given};
ghost use Rattle.plan.specs.Meaning.{settled_plan, settled_kept, tried_plan, before_plan, tried_kept, kept_next, is_empty, SettledBy, TriedBy};
ghost use Rattle.plan.specs.Calls.{LoadGives};
ghost use Rattle.plan.specs.Reports.{reported};

use crate::plans::Plan;
use crate::reports::Report;
use crate::rows::fill;
use crate::states::{Before, Settled, Tried};
use loading::load_refusal;
use rules::blocks::Lists;
use rules::edits::Edit;
use rules::refusals::Refusal;
use std::alloc::{AllocError, Global};
use table::Table;

impl Settled {
    // A new plan, with no blocks, and memory for 512.
    pub fn new(heap: Global) -> Result<Settled, AllocError>
        ensures plain { IfOk result (λ s. (settled_plan s ≡ new_plan) × (settled_kept s ≡ 0)) }
        ensures told { IfOk result (λ s. SettledBy [] s) }
    {
        let table = Table::new(heap)?;
        let spare = Table::new(heap)?;
        Ok(Settled {
            plan: Plan { table },
            spare,
            kept: 0,
        })
    }

    // Replaces the plan by the lists given, every block present, and answers how many there are. A refused load leaves the
    // plan as it was; the walk memory is altered only once the tests of lengths are passed.
    pub fn load(&mut self, lists: Lists<'_>, walk: &mut [u16]) -> Result<usize, Refusal>
        ensures { LoadGives (given lists.entry (length walk.old)) self.old self.new walk.old walk.new result }
    {
        load_refusal(lists, walk)?;
        fill(&mut self.plan.table, lists);
        self.kept = 0;
        Ok(lists.sizes.len())
    }

    pub fn report(&self, block: u16) -> Result<Report, Refusal>
        ensures { result ≡ reported (settled_plan self.now) block }
    {
        self.plan.report(block)
    }

    // Answers the refusal of an edit, or leave, and alters nothing.
    pub fn test(&self, edit: Edit) -> Result<(), Refusal>
        ensures plain { result ≡ answered (edit_refusal (settled_plan self.now) edit) tt }
        ensures told { (cs : List Call) → SettledBy cs self.now → SettledBy (cs ++ (test edit ∷ [])) self.now }
    {
        self.plan.refusal(edit)
    }

    // Opens a trial of the edit; it is empty where the edit is refused.
    pub fn begin(self, edit: Edit) -> Tried
        ensures plan { tried_plan result ≡ plan_begun (edit_refusal (settled_plan self) edit) edit (settled_plan self) }
        ensures before { before_plan result ≡ settled_plan self }
        ensures empty { is_empty result ≡ is_some (edit_refusal (settled_plan self) edit) }
        ensures kept { tried_kept result ≡ settled_kept self }
        ensures next { kept_next result ≡ count_begun (edit_refusal (settled_plan self) edit) (settled_kept self) }
        ensures told { (cs : List Call) → SettledBy cs self → TriedBy (cs ++ (begin edit ∷ [])) result }
    {
        let Settled {
            mut plan,
            mut spare,
            kept,
        } = self;
        if plan.refusal(edit).is_err() {
            return Tried {
                plan,
                before: Before::Unaltered(spare),
                kept,
            };
        }
        spare.copy_from(&plan.table);
        let before = Plan { table: spare };
        plan.perform(edit);
        Tried {
            plan,
            before: Before::Plan(before),
            kept,
        }
    }
}

impl Tried {
    // Whether the trial's edit was refused, so that the plan is unaltered.
    pub fn is_empty(&self) -> bool
        ensures { result ≡ is_empty self.now }
    {
        matches!(self.before, Before::Unaltered(_))
    }

    pub fn report(&self, block: u16) -> Result<Report, Refusal>
        ensures { result ≡ reported (tried_plan self.now) block }
    {
        self.plan.report(block)
    }

    // Ends the trial with its edit in force.
    pub fn keep(self) -> Settled
        ensures plan { settled_plan result ≡ tried_plan self }
        ensures kept { settled_kept result ≡ kept_next self }
        ensures told { (cs : List Call) → TriedBy cs self → SettledBy (cs ++ (keep ∷ [])) result }
    {
        let Tried { plan, before, kept } = self;
        let (spare, kept) = match before {
            Before::Unaltered(spare) => (spare, kept),
            Before::Plan(Plan { table }) => (table, kept.saturating_add(1)),
        };
        Settled { plan, spare, kept }
    }

    // Ends the trial with the plan from before it.
    pub fn undo(self) -> Settled
        ensures plan { settled_plan result ≡ before_plan self }
        ensures kept { settled_kept result ≡ tried_kept self }
        ensures told { (cs : List Call) → TriedBy cs self → SettledBy (cs ++ (undo ∷ [])) result }
    {
        let Tried { plan, before, kept } = self;
        let (plan, spare) = match before {
            Before::Unaltered(spare) => (plan, spare),
            Before::Plan(before) => {
                let Plan { table } = plan;
                (before, table)
            }
        };
        Settled { plan, spare, kept }
    }
}
