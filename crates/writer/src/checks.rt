// The tests of the writer, in their order.
ghost use Rattle.std.specs.Prelude.{◌≡◌, ℕ, ◌+◌, ◌<◌, true, length, is_some, not, position, Some, None, MatchOption};
ghost use Rattle.std.specs.List.{AllByRecursion};
ghost use Rattle.rules.specs.Refusals.{answered};
ghost use Rattle.names.specs.Entries.{name_of};
ghost use Rattle.writer.specs.Texts.{pl_text};
ghost use Rattle.writer.specs.Answers.{writer_refusal, RoomLeft};

use crate::lines::line_len;
use crate::placements::HEADER;
use crate::sheet::Sheet;
use names::entries::LONGEST_TEXT;
use names::name_of;
use rules::refusals::Refusal;

impl<'a> Sheet<'a> {
    // The first block whose entry marks no name in the text.
    fn first_unnamed(self) -> Option<usize>
        ensures { result ≡ position (λ e. not (is_some (name_of self.entry.text.now e))) self.entry.entries.now }
    {
        self.entries
            .iter()
            .position(|entry| name_of(self.text, *entry).is_none())
    }

    // How much of the room is left behind the .pl text; none if the text is longer.
    #[tactic(auto, using(crate::proofs::Progress::length_pl_text), unfolding(crate::specs::Texts::lines_of))]
    fn room_left(self, room: usize) -> Option<usize>
        requires lengths { length self.entries.now ≡ length self.places.now }
        requires named { AllByRecursion (λ e. is_some (name_of self.text.now e) ≡ true) self.entries.now }
        ensures { RoomLeft (pl_text self.entry.text.now self.entry.entries.now self.entry.places.now) room result }
    {
        let mut left = room.checked_sub(HEADER.len())?;
        for (entry, place) in self.entries.iter().zip(self.places) {
            left = left.checked_sub(line_len(self.text, *entry, *place))?;
        }
        Some(left)
    }

    // The first refusal of the writer, if there is one.
    #[tactic(auto, using(crate::proofs::Finding::first_position, crate::proofs::Finding::all_named), unfolding(crate::specs::Answers::writer_refusal))]
    pub(crate) fn test(self, room: usize) -> Result<(), Refusal>
        ensures { result ≡ answered (writer_refusal self.entry.text.now self.entry.entries.now self.entry.places.now room) tt }
    {
        if self.text.len() > LONGEST_TEXT {
            return Err(Refusal::TextTooLong);
        }
        if self.entries.len() != self.places.len() {
            return Err(Refusal::LengthsDiffer);
        }
        if let Some(i) = self.first_unnamed() {
            return Err(Refusal::NoName(u32::try_from(i).unwrap_or(u32::MAX)));
        }
        self.room_left(room).ok_or(Refusal::MemoryTooShort)?;
        Ok(())
    }
}
