// Packing over a skyline that is large enough for every plan.
ghost use Rattle.std.specs.Prelude.{◌≡◌, take};
ghost use Rattle.rules.specs.Plans.{block_count};
ghost use Rattle.promises.specs.Packs.{placements};
ghost use Rattle.plan.specs.Sound.{plan_of};
ghost use Rattle.plan.specs.Meaning.{rows, root_of};
ghost use Rattle.plotter.specs.Within.{Within};

use packer::{Spot, pack};
use plan::Plan;
use rules::blocks::MOST_BLOCKS;
use rules::placements::Placement;
use skyline::spans::Run;
use steps::steps::Steps;

// As many columns as 512 blocks of the longest side reach.
const COLUMNS: u32 = 67_108_864;

// One run to begin with, and two more for each of 512 raises.
const RUNS: usize = 1_025;

// The places of the plan's blocks, at the front. No test of a packing refuses it.
pub(crate) fn places_of(plan: &Plan) -> [Placement; MOST_BLOCKS]
    ensures within { Within (plan_of (rows plan.now) (root_of plan.now)) }
    ensures places { take (block_count (plan_of (rows plan.now) (root_of plan.now))) result ≡ placements (plan_of (rows plan.now) (root_of plan.now)) }
{
    let mut runs = [Run::default(); RUNS];
    let mut skyline = Steps::new(&mut runs, COLUMNS);
    let mut walk = [Spot::default(); MOST_BLOCKS];
    let mut places = [Placement::default(); MOST_BLOCKS];
    let Ok(_) = pack(plan, &mut skyline, &mut walk, &mut places) else {
        unreachable()
    };
    places
}
