#![tactic(auto)]
// Packs plan K over a skyline of one's own, as it is, and with block 0 taken out.
mod counted;

use columns::Columns;
use counted::Counted;
use packer::{Spot, pack};
use plan::{Plan, Settled};
use rules::blocks::{Children, Lists, NONE, Size};
use rules::edits::Edit;
use rules::placements::Placement;
use skyline::skylines::Skyline;
use std::io;

// Plan K: a is the root, b and c its children, d and e those of b.
const SIZES: [Size; 5] = [
    Size {
        width: 4,
        height: 3,
    },
    Size {
        width: 3,
        height: 2,
    },
    Size {
        width: 2,
        height: 4,
    },
    Size {
        width: 2,
        height: 2,
    },
    Size {
        width: 5,
        height: 1,
    },
];

const CHILDREN: [Children; 5] = [
    Children { left: 1, right: 2 },
    Children { left: 3, right: 4 },
    Children::NONE,
    Children::NONE,
    Children::NONE,
];

// Packs the plan, and prints a line for each block.
fn show<S: Skyline>(rt: &HostRuntime, plan: &Plan, skyline: &mut S) -> io::Result<()> {
    let mut walk = [Spot::default(); 5];
    let mut places = [Placement::default(); 5];
    match pack(plan, skyline, &mut walk, &mut places) {
        Ok(extent) => println!(rt; "packed {} {}", extent.width, extent.height)?,
        Err(refusal) => return rt.println(refusal),
    }
    for place in places {
        println!(rt; "{} {} {} {}", place.x, place.y, place.width, place.height)?;
    }
    Ok(())
}

fn main(rt: HostRuntime) -> io::Result<()> {
    let mut plan = Settled::new(rt.alloc())?;
    let lists = Lists {
        sizes: &SIZES,
        letters: b"FFFFF",
        children: &CHILDREN,
        root: 0,
    };
    let _ = plan.load(lists, &mut [0; 5]);
    let mut heights = [0; 16];
    let mut skyline = Counted {
        inner: Columns::new(&mut heights),
        taken: 0,
    };
    show(&rt, plan.plan(), &mut skyline)?;
    let trial = plan.begin(Edit::TakeOut(0));
    let shown = show(&rt, trial.plan(), &mut skyline);
    let _ = trial.undo();
    shown?;
    println!(rt; "raises taken {}", skyline.taken)
}
