// The one call from text to text.
ghost use Rattle.std.specs.Prelude.{length};
ghost use Rattle.reader.specs.Text.{said};
ghost use Rattle.writer.specs.Answers.{too_short, Writes};
ghost use Rattle.plotter.specs.Said.{plot_text, PlotTells};

use crate::blocks::plot_entries;
use names::entries::Entry;
use plan::Settled;
use reader::read_blocks;
use rules::blocks::MOST_BLOCKS;
use rules::refusals::Refusal;
use writer::write_refusal;

// Reads a .blocks text and writes the .pl text of its blocks, packed as a tree with block 0 as the root and blocks 2k + 1 and
// 2k + 2 as the left and the right child of block k; of a text that is refused it writes the line `refused N at P`. Answers how
// many bytes it wrote, and leaves those behind them; where they do not fit it refuses with 18 and leaves all bytes. The plan is
// memory for the tree.
pub fn plot(plan: Settled, text: &[u8], out: &mut [u8]) -> Result<usize, Refusal>
    ensures writes { Writes (too_short (plot_text (said text.now)) (length out.old)) (plot_text (said text.now)) out.old out.new result }
    ensures tells { PlotTells (said text.now) out.new result }
{
    let mut entries = [Entry::default(); MOST_BLOCKS];
    match read_blocks(text, &mut entries) {
        Ok(count) => plot_entries(plan, text, &entries[0..count], out),
        Err(refusal) => write_refusal(refusal, out),
    }
}
