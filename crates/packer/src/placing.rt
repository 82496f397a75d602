// Placing the blocks of a plan on a skyline, one after the other.
ghost use Rattle.std.specs.Prelude.{◌≡◌, ℕ, ◌+◌, ◌<◌, ◌≤◌, ◌++◌, length, drop, replicate};
ghost use Rattle.rules.specs.Packing.{packed, height as height_of};
ghost use Rattle.rules.specs.Skylines.{Within, Largest};
ghost use Rattle.promises.specs.Packs.{nowhere, Under, with_placements};
ghost use Rattle.plan.specs.Sound.{plan_of};
ghost use Rattle.plan.specs.Meaning.{rows, root_of};
ghost use Rattle.packer.specs.Places.{Placed, Enough};

use crate::spots::{Spot, Visit};
use crate::walking::Walk;
use plan::Plan;
use rules::placements::Placement;
use skyline::skylines::Skyline;

// Makes blocks 0 to n - 1 absent in the records.
fn blank_records(places: &mut [Placement], n: usize)
    requires { n ≤ length places.old }
    ensures { places.new ≡ replicate n nowhere ++ drop n places.old }
{
    places[..n].fill(Placement::default());
}

// Rests a block on the highest column under it, and raises the skyline to its top.
fn place_block<S: Skyline>(skyline: &mut S, visit: Visit) -> Placement
    requires span { Within (S.Skyline.meaning skyline.old) visit.left (visit.left + visit.size.width) }
    requires some { 0 < (S.Skyline.meaning skyline.old).left }
    requires low { (h : ℕ) → Largest (S.Skyline.meaning skyline.old) visit.left (visit.left + visit.size.width) h → h + visit.size.height ≤ 134217728 }
    ensures { Placed (S.Skyline.meaning skyline.old) (S.Skyline.meaning skyline.new) visit result }
{
    let Visit { left, size, .. } = visit;
    let right = left + size.width;
    let Ok(y) = skyline.highest(left, right) else {
        unreachable()
    };
    let Ok(_) = skyline.raise(left, right, y + size.height) else {
        unreachable()
    };
    Placement {
        x: left,
        y,
        width: size.width,
        height: size.height,
    }
}

// Places every present block, from a cleared skyline on, and writes one record a block; answers the height.
pub(crate) fn place_all<S: Skyline>(
    plan: &Plan,
    skyline: &mut S,
    walk: &mut [Spot],
    places: &mut [Placement],
) -> u32
    requires { Enough (plan_of (rows plan.now) (root_of plan.now)) (S.Skyline.meaning skyline.old) (length walk.old) (length places.old) }
    ensures height { result ≡ height_of (packed (plan_of (rows plan.now) (root_of plan.now))) }
    ensures places { places.new ≡ with_placements (plan_of (rows plan.now) (root_of plan.now)) places.old }
    ensures skyline { Under (plan_of (rows plan.now) (root_of plan.now)) (S.Skyline.meaning skyline.old) (S.Skyline.meaning skyline.new) }
{
    blank_records(places, plan.blocks().len());
    skyline.clear();
    let mut height = 0;
    for visit in Walk::new(plan, walk) {
        let place = place_block(skyline, visit);
        places[visit.block as usize] = place;
        height = (place.y + place.height).max(height);
    }
    height
}
