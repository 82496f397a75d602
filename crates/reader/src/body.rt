// The body of a text: block lines and terminal lines.
ghost use Rattle.std.specs.Prelude.{◌<◌};
ghost use Rattle.reader.specs.Left.{line_at, lines_left};
ghost use Rattle.reader.specs.Found.{blocks_of};
ghost use Rattle.reader.specs.Bodies.{LineRead, BodyRead};

use crate::blocks::Blocks;
use crate::lines::{Used, UsedLines};
use grammar::outlines::Item;
use grammar::said::item_of;
use rules::refusals::Refusal;

// One more line of the body; answers how many terminals there are now.
#[tactic(auto, unfolding(crate::specs::Text::body))]
fn add_line<'a>(line: Used<'a>, terminals: u32, blocks: &mut Blocks<'a, '_>) -> Result<u32, Refusal>
    requires { terminals < 65536 }
    ensures { LineRead (line_at line.entry) (blocks_of blocks.old) terminals result (blocks_of blocks.new) }
{
    match item_of(line.bytes) {
        Some(Item::Terminal) => Ok(terminals + 1),
        Some(Item::Block(outline)) => {
            blocks.add(line, outline)?;
            Ok(terminals)
        }
        None => Err(Refusal::WrongForm(line.number)),
    }
}

// All lines of the body; answers how many terminals there are. It stands out of line, so that its loop keeps what it counts in
// registers: in one function with the rest of a program, blank lines cost a fifth more.
#[inline(never)]
#[tactic(auto, using(crate::proofs::Ahead::few_left), unfolding(crate::specs::Text::body))]
pub(crate) fn read_body<'a>(
    lines: UsedLines<'a>,
    blocks: &mut Blocks<'a, '_>,
) -> Result<u32, Refusal>
    ensures { BodyRead (lines_left lines.entry) (blocks_of blocks.old) result (blocks_of blocks.new) }
{
    let mut terminals = 0;
    for line in lines {
        terminals = add_line(line, terminals, blocks)?;
    }
    Ok(terminals)
}
