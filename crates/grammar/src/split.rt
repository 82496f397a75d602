// A line cut into words.
ghost use Rattle.std.specs.Prelude.{◌≡◌};
ghost use Rattle.grammar.specs.Words.{blank, mark, words, indent, FirstWord};

use words::split::Alphabet;

// Words parted by spaces and tabs, where ( ) , : are marks.
struct Marked;

impl Alphabet for Marked {
    ghost blanks = { blank };

    ghost marks = { mark };

    fn is_blank(b: u8) -> bool {
        matches!(b, b' ' | b'\t')
    }

    fn is_mark(b: u8) -> bool {
        matches!(b, b'(' | b')' | b',' | b':')
    }
}

// How many blanks a line begins with.
#[tactic(auto, unfolding(crate::specs::Words::indent))]
pub fn indent_of(line: &[u8]) -> usize
    ensures { result ≡ indent line.now }
{
    words::split::indent_of::<Marked>(line)
}

// The first word of a line and what is behind it.
#[tactic(auto, unfolding(crate::specs::Words::words))]
pub(crate) fn next_word(line: &[u8]) -> Option<(&[u8], &[u8])>
    ensures { FirstWord line.now result }
{
    words::split::next_word::<Marked>(line)
}
