// The .pl text of placed blocks.
ghost use Rattle.std.specs.Prelude.{◌≡◌, ◌≤◌, true, length, is_some};
ghost use Rattle.std.specs.List.{AllByRecursion};
ghost use Rattle.names.specs.Entries.{name_of};
ghost use Rattle.writer.specs.Bytes.{ahead, loan, Added};
ghost use Rattle.writer.specs.Texts.{pl_text};
ghost use Rattle.writer.specs.Answers.{writer_refusal, Writes};
ghost use Rattle.writer.specs.Readings.{ReadBack};

use crate::lines::write_line;
use crate::pen::Pen;
use crate::sheet::Sheet;
use names::entries::Entry;
use rules::placements::Placement;
use rules::refusals::Refusal;

// The first line, and an empty one.
pub(crate) const HEADER: &[u8] = b"UCLA pl 1.0\n\n";

impl<'a> Sheet<'a> {
    // Writes the whole text.
    #[tactic(auto, using(crate::proofs::Progress::length_pl_text))]
    fn write(self, pen: &mut Pen<'_>)
        requires lengths { length self.entries.now ≡ length self.places.now }
        requires named { AllByRecursion (λ e. is_some (name_of self.text.now e) ≡ true) self.entries.now }
        requires room { length (pl_text self.text.now self.entries.now self.places.now) ≤ length (ahead pen.old) }
        ensures added { Added pen.old (pl_text self.entry.text.now self.entry.entries.now self.entry.places.now) pen.new }
        ensures loan { loan pen.new ≡ loan pen.old }
    {
        pen.bytes(HEADER);
        for (entry, place) in self.entries.iter().zip(self.places) {
            write_line(pen, self.text, *entry, *place);
        }
    }

    // Writes the text at the front unless a test refuses it; answers its length.
    fn write_tested(self, out: &mut [u8]) -> Result<usize, Refusal>
        ensures { Writes (writer_refusal self.entry.text.now self.entry.entries.now self.entry.places.now (length out.old)) (pl_text self.entry.text.now self.entry.entries.now self.entry.places.now) out.old out.new result }
    {
        self.test(out.len())?;
        let mut pen = Pen::over(out);
        self.write(&mut pen);
        Ok(pen.len())
    }
}

// Writes the .pl text of the blocks that have names in the text and places: a line for each block whose width is not 0, in number
// order. Answers its length, and leaves the bytes behind it; a refusal leaves all bytes.
#[tactic(auto, using(crate::proofs::Reading::read_back))]
pub fn write_placements(
    text: &[u8],
    entries: &[Entry],
    places: &[Placement],
    out: &mut [u8],
) -> Result<usize, Refusal>
    ensures writes { Writes (writer_refusal text.now entries.now places.now (length out.old)) (pl_text text.now entries.now places.now) out.old out.new result }
    ensures read_back { ReadBack text.now entries.now places.now out.new result }
{
    let sheet = Sheet {
        text,
        entries,
        places,
    };
    sheet.write_tested(out)
}
