// The first words of a line.
ghost use Rattle.std.specs.Prelude.{◌≡◌, map, take};
ghost use Rattle.grammar.specs.Words.{words};

use crate::split::next_word;

// Room for the words of the longest form, 23, and for one more.
const ROOM: usize = 24;

pub(crate) type Room<'a> = [&'a [u8]; ROOM];

// No words of the line; it fills memory.
pub(crate) fn no_words(line: &[u8]) -> Room<'_> {
    [&line[..0]; ROOM]
}

// The words of a line, as many as there is room for. The room is lent: handed back with its count it was copied for each line.
pub(crate) fn first_words<'a, 'b>(line: &'a [u8], room: &'b mut Room<'a>) -> &'b [&'a [u8]]
    ensures { map (λ w. w.now) result.now ≡ take 24 (words line.now) }
{
    let mut rest = line;
    for (count, place) in room.iter_mut().enumerate() {
        let Some((word, behind)) = next_word(rest) else {
            return &room[..count];
        };
        *place = word;
        rest = behind;
    }
    room
}
