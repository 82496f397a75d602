// The blocks that a text tells, packed and written.
ghost use Rattle.std.specs.Prelude.{◌≡◌, ℕ, ◌<◌, ◌≤◌, false, map, length, take, None};
ghost use Rattle.rules.specs.Loads.{first, wrong_size};
ghost use Rattle.promises.specs.Packs.{placements};
ghost use Rattle.names.specs.Entries.{marked};
ghost use Rattle.writer.specs.Answers.{unnamed, too_short, Writes};
ghost use Rattle.plotter.specs.Plots.{size_of, plan_of_entries, named_text, Tells};
ghost use Rattle.plotter.specs.Within.{Seen};

use crate::packs::places_of;
use heap_tree::load_heap;
use names::entries::Entry;
use plan::Settled;
use rules::blocks::{MOST_BLOCKS, Size};
use rules::placements::Placement;
use rules::refusals::Refusal;
use writer::write_placements;

// The places of the blocks, at the front. The plan is memory for the tree. The sizes are written by number, since what `iter_mut`
// lends beside another iterator has no value known at the end.
fn packed_places(plan: Settled, entries: &[Entry]) -> [Placement; MOST_BLOCKS]
    requires few { length entries.now ≤ 512 }
    requires sized { first (wrong_size (map size_of entries.now)) 0 (length (map size_of entries.now)) ≡ None }
    ensures seen { Seen (placements (plan_of_entries entries.now)) (length entries.now) }
    ensures places { take (length entries.now) result ≡ placements (plan_of_entries entries.now) }
{
    let mut plan = plan;
    let mut sizes = [Size::default(); MOST_BLOCKS];
    for (i, entry) in entries.iter().enumerate() {
        sizes[i] = entry.size;
    }
    let Ok(_) = load_heap(&mut plan, &sizes[..entries.len()]) else {
        unreachable()
    };
    places_of(plan.plan())
}

// Writes the .pl text of blocks that a text tells.
pub(crate) fn plot_entries(
    plan: Settled,
    text: &[u8],
    entries: &[Entry],
    out: &mut [u8],
) -> Result<usize, Refusal>
    requires short { length text.now ≤ 65536 }
    requires few { length entries.now ≤ 512 }
    requires named { (k : ℕ) → k < length entries.now → unnamed text.now entries.now k ≡ false }
    requires sized { first (wrong_size (map size_of entries.now)) 0 (length (map size_of entries.now)) ≡ None }
    ensures writes { Writes (too_short (named_text (map (marked text.now) entries.now) (placements (plan_of_entries entries.now))) (length out.old)) (named_text (map (marked text.now) entries.now) (placements (plan_of_entries entries.now))) out.old out.new result }
    ensures tells { Tells (map (marked text.now) entries.now) (placements (plan_of_entries entries.now)) out.new result }
{
    let places = packed_places(plan, entries);
    write_placements(text, entries, &places[0..entries.len()], out)
}
