// The plan in hand, settled or with a trial open.
ghost use Rattle.std.specs.Prelude.{◌≡◌, List, [], ◌∷◌, ◌++◌, Ok};
ghost use Rattle.rules.specs.Book.{Call, pack as packs, book, book_plan};
ghost use Rattle.promises.specs.Promise.{Promise};
ghost use Rattle.packer.specs.Gives.{PackGives};
ghost use Rattle.calls.specs.Desks.{held, settled_or_tried, DeskBy};

use packer::{Extent, Spot, pack};
use plan::{Plan, Settled, Tried};
use rules::placements::Placement;
use rules::refusals::Refusal;
use skyline::skylines::Skyline;

pub enum Desk {
    Settled(Settled),
    Tried(Tried),
}

// A desk that is let go undoes its open trial.
impl Drop for Desk {
    fn drop(self) {
        match self {
            Desk::Settled(_) => {}
            Desk::Tried(trial) => {
                let _ = trial.undo();
            }
        }
    }
}

impl Desk {
    // The plan in hand.
    pub fn plan(&self) -> &Plan
        ensures { result.now ≡ held self.now }
    {
        match self {
            Desk::Settled(plan) => plan.plan(),
            Desk::Tried(trial) => trial.plan(),
        }
    }

    // The settled plan, or the open trial where there is one.
    pub fn into_settled(self) -> Result<Settled, Tried>
        ensures { result ≡ settled_or_tried self }
    {
        match self {
            Desk::Settled(plan) => Ok(plan),
            Desk::Tried(trial) => Err(trial),
        }
    }

    // Packs the plan in hand.
    pub(crate) fn pack<S: Skyline>(
        &self,
        skyline: &mut S,
        spots: &mut [Spot],
        places: &mut [Placement],
    ) -> Result<Extent, Refusal>
        ensures gives { (cs : List Call) → DeskBy cs self.now → PackGives S.Skyline.meaning (book_plan (book cs)) skyline.old skyline.new spots.old spots.new places.old places.new result }
        ensures told { (cs : List Call) → DeskBy cs self.now → DeskBy (cs ++ (packs ∷ [])) self.now }
        ensures promise { (cs : List Call) → DeskBy cs self.now → (x : Extent) → result ≡ Ok x → Promise cs x.width x.height places.new (S.Skyline.meaning skyline.new) }
    {
        pack(self.plan(), skyline, spots, places)
    }
}
