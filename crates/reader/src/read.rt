// A whole text.
ghost use Rattle.std.specs.Prelude.{◌≡◌, ◌≤◌, List, ◌++◌, map, length, drop, Ok};
ghost use Rattle.std.specs.List.{AllByRecursion};
ghost use Rattle.reader.specs.Left.{lines_left};
ghost use Rattle.reader.specs.Bodies.{TextRead};
ghost use Rattle.reader.specs.Found.{block_of, Named};
ghost use Rattle.reader.specs.Text.{Block, said, in_room, entry_of, answer_of, records_after};

use crate::blocks::{Blocks, Found};
use crate::body::read_body;
use crate::counts::Counts;
use crate::heads::take_counts;
use crate::lines::UsedLines;
use names::entries::Entry;
use rules::blocks::MOST_BLOCKS;
use rules::refusals::Refusal;

// The blocks that the lines of a text tell, in line order.
fn read_text<'a, 'b>(
    mut lines: UsedLines<'a>,
    memory: &'b mut [Found<'a>; MOST_BLOCKS],
) -> Result<Blocks<'a, 'b>, Refusal>
    ensures { TextRead (lines_left lines.entry) result }
{
    let counts = take_counts(&mut lines)?;
    let mut blocks = Blocks::over(memory);
    let terminals = read_body(lines, &mut blocks)?;
    let right = Counts {
        soft: 0,
        hard: blocks.as_slice().len() as u32,
        terminals,
    };
    if counts == right {
        Ok(blocks)
    } else {
        Err(Refusal::WrongCount)
    }
}

// Fills the first records with those of the blocks. They are written by number, since what `iter_mut` lends beside another
// iterator has no value known at the end.
fn fill(records: &mut [Entry], found: &[Found<'_>])
    requires { length found.now ≤ length records.old }
    ensures { records.new ≡ map entry_of (map block_of found.now) ++ drop (length found.now) records.old }
{
    for (i, block) in found.iter().enumerate() {
        records[i] = block.entry();
    }
}

// Reads a .blocks text: answers the number of its blocks, and fills a record for each, in line order.
#[tactic(auto, using(crate::proofs::Naming::said_named))]
pub fn read_blocks(text: &[u8], records: &mut [Entry]) -> Result<usize, Refusal>
    ensures answer { result ≡ answer_of (in_room (length records.old) (said text.now)) }
    ensures records { records.new ≡ records_after (in_room (length records.old) (said text.now)) records.old }
    ensures names { (blocks : List Block) → said text.now ≡ Ok blocks → AllByRecursion (Named text.now) blocks }
{
    let lines = UsedLines::of(text)?;
    let mut memory = [Found::none(text); MOST_BLOCKS];
    let blocks = read_text(lines, &mut memory)?;
    let found = blocks.as_slice();
    if records.len() < found.len() {
        return Err(Refusal::MemoryTooShort);
    }
    fill(records, found);
    Ok(found.len())
}
