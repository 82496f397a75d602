// Performing a list of calls, and packing the plan that it leads to.
ghost use Rattle.std.specs.Prelude.{◌≡◌, ℕ, min, ◌≢◌, List, [], ◌∷◌, ◌++◌, map, length, Some, None};
ghost use Rattle.rules.specs.declared.refusals.Refusal.{Refusal};
ghost use Rattle.rules.specs.Loads.{room_refusal};
ghost use Rattle.rules.specs.Book.{Call as Said, load as loads, new_book, book, book_plan, out_of_turn, state_after};
ghost use Rattle.plan.specs.Calls.{LoadGives};
ghost use Rattle.plan.specs.Meaning.{SettledBy, TriedBy};
ghost use Rattle.packer.specs.Gives.{PackGives};
ghost use Rattle.packer.specs.Shows.{PackShows};
ghost use Rattle.calls.specs.Said.{load_given, said};
ghost use Rattle.calls.specs.Desks.{DeskBy};
ghost use Rattle.calls.specs.Runs.{memory, WalkLeft, CallLeaves, Performed, PackAfter};

use crate::call::{Call, Loading, Stop};
use crate::desk::Desk;
use crate::turns::in_turn;
use packer::{Extent, Spot};
use plan::{Settled, Tried};
use rules::blocks::{Lists, NONE};
use rules::placements::Placement;
use rules::refusals::Refusal;
use skyline::skylines::Skyline;

// The plan made new again.
fn renewed(mut plan: Settled) -> Settled
    ensures { SettledBy [] result }
{
    let no_blocks = Lists {
        sizes: &[],
        letters: &[],
        children: &[],
        root: NONE,
    };
    let _ = plan.load(no_blocks, &mut []);
    plan
}

// Performs a load, with the first walk records lent, as many as it names or all.
fn load(plan: &mut Settled, loading: &Loading, walk: &mut [u16])
    ensures told { (cs : List Said) → SettledBy cs plan.old → SettledBy (cs ++ (loads (load_given (length walk.old) loading.now) ∷ [])) plan.new }
    ensures walk { (reason : Refusal) → room_refusal (load_given (length walk.old) loading.now) None ≡ Some reason → walk.new ≡ walk.old }
{
    let Loading { lists, walk: most } = *loading;
    let records = most.min(walk.len());
    let _ = plan.load(lists, &mut walk[..records]);
}

// A call on a settled plan, but for a packing; keep and undo are out of turn.
fn settled_step(mut plan: Settled, call: &Call, walk: &mut [u16]) -> Desk
    ensures told { (cs : List Said) → SettledBy cs plan → state_after (cs ++ (said (length walk.old) call.now ∷ [])) ≢ out_of_turn → DeskBy (cs ++ (said (length walk.old) call.now ∷ [])) result }
    ensures walk { WalkLeft (said (length walk.old) call.now) walk.old walk.new }
{
    match call {
        Call::Load(loading) => {
            load(&mut plan, loading, walk);
            Desk::Settled(plan)
        }
        Call::Test(edit) => {
            let _ = plan.test(*edit);
            Desk::Settled(plan)
        }
        Call::Begin(edit) => Desk::Tried(plan.begin(*edit)),
        _ => Desk::Settled(plan),
    }
}

// A call on an open trial, but for a packing; load, test and begin are out of turn.
fn tried_step(trial: Tried, call: &Call) -> Desk
    ensures { (records : ℕ) (cs : List Said) → TriedBy cs trial → state_after (cs ++ (said records call.now ∷ [])) ≢ out_of_turn → DeskBy (cs ++ (said records call.now ∷ [])) result }
{
    match call {
        Call::Keep => Desk::Settled(trial.keep()),
        Call::Undo => Desk::Settled(trial.undo()),
        _ => Desk::Tried(trial),
    }
}

// One call more on the plan in hand.
fn step<S: Skyline>(
    desk: Desk,
    call: &Call,
    skyline: &mut S,
    walk: &mut [u16],
    spots: &mut [Spot],
    places: &mut [Placement],
) -> Desk
    ensures told { (cs : List Said) → DeskBy cs desk → state_after (cs ++ (said (length walk.old) call.now ∷ [])) ≢ out_of_turn → DeskBy (cs ++ (said (length walk.old) call.now ∷ [])) result }
    ensures leaves { (cs : List Said) → DeskBy cs desk → CallLeaves S.Skyline.meaning (book_plan (book cs)) (said (length walk.old) call.now) (memory skyline.old walk.old spots.old places.old) (memory skyline.new walk.new spots.new places.new) }
{
    if let Call::Pack = call {
        let _ = desk.pack(skyline, spots, places);
        return desk;
    }
    match desk.into_settled() {
        Ok(plan) => settled_step(plan, call, walk),
        Err(trial) => tried_step(trial, call),
    }
}

// Performs the calls of a list in turn, one after the other, from a new plan on.
fn perform<S: Skyline>(
    plan: Settled,
    calls: &[Call],
    skyline: &mut S,
    walk: &mut [u16],
    spots: &mut [Spot],
    places: &mut [Placement],
) -> Desk
    requires { state_after (map (said (length walk.old)) calls.now) ≢ out_of_turn }
    ensures told { DeskBy (map (said (length walk.old)) calls.now) result }
    ensures performed { Performed S.Skyline.meaning new_book (map (said (length walk.old)) calls.now) (memory skyline.old walk.old spots.old places.old) (memory skyline.new walk.new spots.new places.new) }
{
    let mut desk = Desk::Settled(renewed(plan));
    for call in calls {
        desk = step(desk, call, skyline, walk, spots, places);
    }
    desk
}

// Performs a list of calls from a new plan on, and packs the plan that it leads to. The plan given is any settled one, whose
// memory is used. A load of the list uses the first walk records, a packing the spots and the placement records. A list out of
// turn is refused, and nothing is altered.
// The four parts of the memory stay apart: in a struct each would owe a clause more, that it is still the one lent.
pub fn pack_after<S: Skyline>(
    plan: Settled,
    calls: &[Call],
    skyline: &mut S,
    walk: &mut [u16],
    spots: &mut [Spot],
    places: &mut [Placement],
) -> Result<Extent, Stop>
    ensures { PackAfter S.Skyline.meaning (map (said (length walk.old)) calls.now) (memory skyline.old walk.old spots.old places.old) (memory skyline.new walk.new spots.new places.new) result }
{
    in_turn(calls)?;
    let desk = perform(plan, calls, skyline, walk, spots, places);
    let extent = desk.pack(skyline, spots, places)?;
    Ok(extent)
}
