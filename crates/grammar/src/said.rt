// What a line says.
ghost use Rattle.std.specs.Prelude.{◌≡◌, is_some};
ghost use Rattle.grammar.specs.Words.{words};
ghost use Rattle.grammar.specs.Forms.{header_of, count_of};
ghost use Rattle.grammar.specs.Relations.{Says};

use crate::first_words::{first_words, no_words};
use crate::forms::{count_of, is_header, is_terminal, outline_of};
use crate::outlines::Item;

// Whether a line is the header.
#[tactic(auto, using(crate::proofs::Rooms::header_room))]
pub fn is_header_line(line: &[u8]) -> bool
    ensures { result ≡ is_some (header_of (words line.now)) }
{
    is_header(first_words(line, &mut no_words(line)))
}

// The count that a line gives under a label.
#[tactic(auto, using(crate::proofs::Rooms::count_room))]
pub fn count_line(label: &[u8], line: &[u8]) -> Option<u32>
    ensures { result ≡ count_of label.now (words line.now) }
{
    count_of(label, first_words(line, &mut no_words(line)))
}

// What a line of the body says; none if it breaks its form.
#[tactic(auto, using(crate::proofs::Rooms::terminal_room, crate::proofs::Rooms::outline_room))]
pub fn item_of(line: &[u8]) -> Option<Item<'_>>
    ensures { Says (words line.now) result }
{
    let mut room = no_words(line);
    let words = first_words(line, &mut room);
    if is_terminal(words) {
        return Some(Item::Terminal);
    }
    outline_of(words).map(|outline| Item::Block(outline))
}
