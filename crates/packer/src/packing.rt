// Packing a plan: the tests, then the placing.
ghost use Rattle.std.specs.Prelude.{◌≡◌, ◌≤◌, length, count_by};
ghost use Rattle.rules.specs.Trees.{size};
ghost use Rattle.rules.specs.Packing.{packed, reach};
ghost use Rattle.plan.specs.Sound.{plan_of};
ghost use Rattle.plan.specs.Meaning.{rows, root_of};
ghost use Rattle.packer.specs.Gives.{Tested, PackGives};
ghost use Rattle.packer.specs.Shows.{PackShows};

use crate::placing::place_all;
use crate::spots::{Extent, Spot};
use crate::walking::Walk;
use plan::Plan;
use rules::placements::Placement;
use rules::refusals::Refusal;
use skyline::skylines::Skyline;
use table::blocks::Block;

// How many blocks are present.
fn count_present(blocks: &[Block]) -> usize
    ensures { result ≡ count_by (λ block. block.present) blocks.now }
{
    blocks.iter().filter(|block| block.present).count()
}

// The largest right edge.
fn reach_of(plan: &Plan, walk: &mut [Spot]) -> u32
    requires { size (plan_of (rows plan.now) (root_of plan.now)).tree ≤ length walk.old }
    ensures { result ≡ reach (packed (plan_of (rows plan.now) (root_of plan.now))) }
{
    Walk::new(plan, walk).fold(0, |reach, visit| (visit.left + visit.size.width).max(reach))
}

// The plan's reach, if the walk memory, that many records and the skyline are large enough for it.
#[tactic(auto, using(crate::proofs::Present::present_is, crate::proofs::Present::rows_are, crate::proofs::Present::packed_flat), unfolding(promises::specs::Packs::pack_refusal))]
fn tested_reach<S: Skyline>(
    plan: &Plan,
    skyline: &S,
    walk: &mut [Spot],
    records: usize,
) -> Result<u32, Refusal>
    ensures { Tested (plan_of (rows plan.now) (root_of plan.now)) (S.Skyline.meaning skyline.now) walk.old walk.new records result }
{
    let blocks = plan.blocks();
    let present = count_present(blocks);
    if walk.len() < present || records < blocks.len() {
        return Err(Refusal::MemoryTooShort);
    }
    let reach = reach_of(plan, walk);
    if skyline.columns() < reach {
        return Err(Refusal::ReachTooWide);
    }
    if (skyline.raises() as usize) < present {
        return Err(Refusal::TooFewRaises);
    }
    Ok(reach)
}

// Places the present blocks of a plan, each resting on those before it in depth-first order, and writes one record a block. It
// stands apart from `pack`, where `shows` follows from this clause as a whole: in one function `shows` was not proved at its returns.
fn pack_plan<S: Skyline>(
    plan: &Plan,
    skyline: &mut S,
    walk: &mut [Spot],
    places: &mut [Placement],
) -> Result<Extent, Refusal>
    ensures { PackGives S.Skyline.meaning (plan_of (rows plan.now) (root_of plan.now)) skyline.old skyline.new walk.old walk.new places.old places.new result }
{
    let width = tested_reach(plan, skyline, walk, places.len())?;
    let height = place_all(plan, skyline, walk, places);
    Ok(Extent { width, height })
}

// Packs the plan in hand over a skyline in any state: `gives` says what it answers and leaves, `shows` what every accepted packing
// shows, for every list of calls that led to the plan.
// The skyline and the two slices stay apart: in a struct each would owe a clause more, that it is still the one lent.
pub fn pack<S: Skyline>(
    plan: &Plan,
    skyline: &mut S,
    walk: &mut [Spot],
    places: &mut [Placement],
) -> Result<Extent, Refusal>
    ensures gives { PackGives S.Skyline.meaning (plan_of (rows plan.now) (root_of plan.now)) skyline.old skyline.new walk.old walk.new places.old places.new result }
    ensures shows { PackShows (plan_of (rows plan.now) (root_of plan.now)) (S.Skyline.meaning skyline.new) places.new result }
{
    pack_plan(plan, skyline, walk, places)
}
