// A text cut into lines.
ghost use Rattle.grammar.specs.Lines.{skipped, FirstLine};
ghost use Rattle.std.specs.Prelude.{◌≡◌};

use crate::split::next_word;

// The first line of a text without its end, and what is behind it.
#[tactic(auto, using(crate::proofs::Cuts::ends_cr, crate::proofs::Cuts::ends_else))]
pub fn next_line(text: &[u8]) -> Option<(&[u8], &[u8])>
    ensures { FirstLine text.now result }
{
    let (line, behind) = words::split::next_line(text)?;
    match line {
        [front @ .., b'\r'] if line.len() < text.len() => Some((front, behind)),
        _ => Some((line, behind)),
    }
}

// Whether a line is blank or begins with #.
pub fn is_skipped(line: &[u8]) -> bool
    ensures { result ≡ skipped line.now }
{
    match line {
        [b'#', ..] => true,
        _ => next_word(line).is_none(),
    }
}
