// A text cut into lines, and a line into words.
ghost use Rattle.std.specs.Prelude.{◌≡◌, ℕ, ◌<◌, ◌≤◌, Bool, false, ◌==◌, ◌∷◌, length, take, drop, slice_index};
ghost use Rattle.std.specs.List.{prefix_len, position_or_len};
ghost use Rattle.words.specs.Lines.{FirstLine};
ghost use Rattle.words.specs.Words.{blank, mark, plain_by, words_by, indent_by, FirstWordBy};

// Where the first LF of a text stands, or the end of the text.
fn line_len(text: &[u8]) -> usize
    ensures within { result ≤ length text.now }
    ensures place { result ≡ position_or_len (λ b. b == 10) text.now }
{
    text.iter().take_while(|b| **b != b'\n').count()
}

// The first line of a text without its LF, and what is behind it.
#[tactic(auto, using(crate::proofs::Cuts::cut_line))]
pub fn next_line(text: &[u8]) -> Option<(&[u8], &[u8])>
    ensures { FirstLine text.now result }
{
    if text.is_empty() {
        return None;
    }
    let (line, rest) = text.split_at(line_len(text));
    match rest.split_first() {
        Some((_, behind)) => Some((line, behind)),
        None => Some((line, rest)),
    }
}

// Which bytes are blanks, which part words, and which are marks, words of their own.
pub trait Alphabet {
    ghost blanks: { ℕ → Bool };

    ghost marks: { ℕ → Bool };

    fn is_blank(b: u8) -> bool
        ensures { result ≡ blanks b };

    fn is_mark(b: u8) -> bool
        ensures { result ≡ marks b };
}

// Words parted by spaces, tabs and CRs, with no marks.
pub struct Spaced;

impl Alphabet for Spaced {
    ghost blanks = { blank };

    ghost marks = { mark };

    fn is_blank(b: u8) -> bool {
        matches!(b, b' ' | b'\t' | b'\r')
    }

    fn is_mark(_: u8) -> bool {
        false
    }
}

fn is_plain<A: Alphabet>(b: u8) -> bool
    ensures { result ≡ plain_by A.blanks A.marks b }
{
    !(A::is_blank(b) || A::is_mark(b))
}

// How many blanks a line begins with.
pub fn indent_of<A: Alphabet>(line: &[u8]) -> usize
    ensures { result ≡ indent_by A.blanks line.now }
{
    line.iter().take_while(|b| A::is_blank(**b)).count()
}

// How many bytes of a word that is no mark a line begins with.
fn plain_len<A: Alphabet>(line: &[u8]) -> usize
    ensures { result ≡ prefix_len (plain_by A.blanks A.marks) line.now }
{
    line.iter().take_while(|b| is_plain::<A>(**b)).count()
}

// The length of the first word of a line that begins with one.
#[tactic(auto, using(crate::proofs::Splits::run_len, crate::proofs::Splits::run_within))]
fn word_len<A: Alphabet>(line: &[u8]) -> usize
    requires { (0 < length line.now) × (A.blanks (slice_index line.now 0) ≡ false) }
    ensures within { result ≤ length line.now }
    ensures first { words_by A.blanks A.marks line.now ≡ take result line.now ∷ words_by A.blanks A.marks (drop result line.now) }
{
    // a mark is a word of one byte
    plain_len::<A>(line).max(1)
}

// What is left of a line behind its first blanks.
#[tactic(auto, using(crate::proofs::Splits::same_past, crate::proofs::Splits::past_begins, crate::proofs::Splits::indent_within))]
fn past_blanks<A: Alphabet>(line: &[u8]) -> &[u8]
    ensures same { words_by A.blanks A.marks result.now ≡ words_by A.blanks A.marks line.now }
    ensures begins { 0 < length result.now → A.blanks (slice_index result.now 0) ≡ false }
{
    &line[indent_of::<A>(line)..]
}

// The first word of a line and what is behind it.
pub fn next_word<A: Alphabet>(line: &[u8]) -> Option<(&[u8], &[u8])>
    ensures { FirstWordBy A.blanks A.marks line.now result }
{
    let rest = past_blanks::<A>(line);
    if rest.is_empty() {
        return None;
    }
    Some(rest.split_at(word_len::<A>(rest)))
}
