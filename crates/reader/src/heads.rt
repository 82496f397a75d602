// The lines in front of the body.
ghost use Rattle.reader.specs.Bodies.{CountsRead};
ghost use Rattle.reader.specs.Left.{lines_left, HeaderRead, CountRead};

use crate::counts::Counts;
use crate::lines::UsedLines;
use grammar::said::{count_line, is_header_line};
use rules::refusals::Refusal;

// Takes the header line.
fn take_header(lines: &mut UsedLines<'_>) -> Result<(), Refusal>
    ensures { HeaderRead (lines_left lines.old) (lines_left lines.new) result }
{
    let line = lines.next().ok_or(Refusal::NoHeader(0))?;
    if is_header_line(line.bytes) {
        Ok(())
    } else {
        Err(Refusal::NoHeader(line.number))
    }
}

// Takes the count line with this label.
fn take_count(lines: &mut UsedLines<'_>, label: &[u8]) -> Result<u32, Refusal>
    ensures { CountRead label.now (lines_left lines.old) (lines_left lines.new) result }
{
    let line = lines.next().ok_or(Refusal::WrongCount)?;
    count_line(label, line.bytes).ok_or(Refusal::WrongForm(line.number))
}

// Takes the header and the three count lines.
pub(crate) fn take_counts(lines: &mut UsedLines<'_>) -> Result<Counts, Refusal>
    ensures { CountsRead (lines_left lines.old) (lines_left lines.new) result }
{
    take_header(lines)?;
    let soft = take_count(lines, b"NumSoftRectangularBlocks")?;
    let hard = take_count(lines, b"NumHardRectilinearBlocks")?;
    let terminals = take_count(lines, b"NumTerminals")?;
    Ok(Counts {
        soft,
        hard,
        terminals,
    })
}
