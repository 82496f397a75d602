// What the words of a line say, by its form. A byte string inside a slice pattern is matched byte by byte, and the proof did not
// close at that many cases (the header's returns stayed open), so `is` tests each word.
ghost use Rattle.std.specs.Prelude.{◌≡◌, map, is_some};
ghost use Rattle.grammar.specs.Forms.{header_of, count_of, terminal_of, corners_of, size_of};
ghost use Rattle.grammar.specs.Relations.{FirstVertex, Outlined, rectangle};

use crate::outlines::{Corners, Outline, Point};
use names::is_name;
use rules::blocks::Size;
use words::word::{is, number_of};

// Whether the words are the header.
pub(crate) fn is_header(words: &[&[u8]]) -> bool
    ensures { result ≡ is_some (header_of (map (λ w. w.now) words.now)) }
{
    matches!(words, [maker, kind, version] if is(maker, b"UCSC") && is(kind, b"blocks") && is(version, b"1.0"))
}

// The count that the words give under a label.
pub(crate) fn count_of(label: &[u8], words: &[&[u8]]) -> Option<u32>
    ensures { result ≡ count_of label.now (map (λ w. w.now) words.now) }
{
    match words {
        [front, colon, digits] if *front == label && is(colon, b":") => number_of(digits),
        _ => None,
    }
}

// Whether the words name a terminal.
pub(crate) fn is_terminal(words: &[&[u8]]) -> bool
    ensures { result ≡ is_some (terminal_of (map (λ w. w.now) words.now)) }
{
    matches!(words, [name, kind] if is_name(name) && is(kind, b"terminal"))
}

// The vertex in front of the words, and the words behind it.
pub(crate) fn vertex_of<'a, 'b>(words: &'a [&'b [u8]]) -> Option<(Point, &'a [&'b [u8]])>
    ensures { FirstVertex (map (λ w. w.now) words.now) result }
{
    match words {
        [open, x, comma, y, close, rest @ ..]
            if is(open, b"(") && is(comma, b",") && is(close, b")") => {
            let x = number_of(x)?;
            let y = number_of(y)?;
            Some((Point { x, y }, rest))
        }
        _ => None,
    }
}

// The vertices, where the words are four and no more.
#[tactic(auto, using(crate::proofs::Tested::more_words))]
pub(crate) fn corners_of(words: &[&[u8]]) -> Option<Corners>
    ensures { result ≡ corners_of (map (λ w. w.now) words.now) }
{
    let (first, words) = vertex_of(words)?;
    let (second, words) = vertex_of(words)?;
    let (third, words) = vertex_of(words)?;
    let (fourth, []) = vertex_of(words)? else {
        return None;
    };
    Some(Corners {
        first,
        second,
        third,
        fourth,
    })
}

// The block's name and vertices that the words give.
#[tactic(auto, using(crate::proofs::Tested::outline_short))]
pub(crate) fn outline_of<'a>(words: &[&'a [u8]]) -> Option<Outline<'a>>
    ensures { Outlined (map (λ w. w.now) words.now) result }
{
    let [name, kind, four, rest @ ..] = words else {
        return None;
    };
    if !(is_name(name) && is(kind, b"hardrectilinear") && is(four, b"4")) {
        return None;
    }
    let corners = corners_of(rest)?;
    Some(Outline { name, corners })
}

impl Corners {
    // The corners of the rectangle of this size at the origin.
    fn of(size: Size) -> Corners
        ensures { result ≡ rectangle size }
    {
        let Size { width, height } = size;
        Corners {
            first: Point { x: 0, y: 0 },
            second: Point { x: 0, y: height },
            third: Point {
                x: width,
                y: height,
            },
            fourth: Point { x: width, y: 0 },
        }
    }

    // The size of the rectangle at the origin whose corners these are.
    pub fn size(&self) -> Option<Size>
        ensures { result ≡ size_of self.now }
    {
        let size = Size {
            width: self.third.x,
            height: self.third.y,
        };
        (*self == Corners::of(size)).then_some(size)
    }
}
