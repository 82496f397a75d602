// The lines of a text that are used, one by one.
ghost use Rattle.reader.specs.Left.{line_at, lines_left, LinesOf};
ghost use Rattle.std.specs.Iterator.{item_count, YieldsFirstBy};

use super::{Used, UsedLines};
use grammar::lines::{is_skipped, next_line};
use names::entries::LONGEST_TEXT;
use rules::refusals::Refusal;

impl<'a> UsedLines<'a> {
    // All of a text's, unless it is too long.
    pub(crate) fn of(text: &'a [u8]) -> Result<UsedLines<'a>, Refusal>
        ensures { LinesOf text.now result }
    {
        if text.len() > LONGEST_TEXT {
            return Err(Refusal::TextTooLong);
        }
        Ok(UsedLines {
            rest: text,
            place: 0,
            number: 1,
        })
    }
}

impl<'a> Iterator for UsedLines<'a> {
    type Item = Used<'a>;

    ghost next_gives = { YieldsFirstBy line_at lines_left };

    ghost remaining = { item_count lines_left };

    #[tactic(auto, using(crate::proofs::Ahead::line_within, grammar::proofs::Following::used_here, grammar::proofs::Following::used_behind, grammar::proofs::Following::none_used))]
    fn next(&mut self) -> Option<Used<'a>> {
        loop {
            let (number, start) = (self.number, self.place);
            let (bytes, behind) = next_line(self.rest)?;
            *self = UsedLines {
                rest: behind,
                place: start + (self.rest.len() - behind.len()),
                number: number + 1,
            };
            if !is_skipped(bytes) {
                return Some(Used {
                    number,
                    start,
                    bytes,
                });
            }
        }
    }
}
