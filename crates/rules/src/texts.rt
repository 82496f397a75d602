// A refusal's number and place, and its line of text.
ghost use Rattle.std.specs.Prelude.{◌≡◌, Some};
ghost use Rattle.rules.specs.Refusals.{number, place, refusal_text};

use crate::refusals::Refusal;
use std::fmt;

impl Refusal {
    pub fn number(&self) -> u8
        ensures { result ≡ number self.now }
    {
        match self {
            Refusal::TooManyBlocks(_) => 1,
            Refusal::LengthsDiffer => 2,
            Refusal::SideOutOfRange(_) => 3,
            Refusal::UnknownLetter(_) => 4,
            Refusal::WrongChild(_) => 5,
            Refusal::WrongRoot => 6,
            Refusal::ChildTwice(_) => 7,
            Refusal::Unreached(_) => 8,
            Refusal::NoSuchBlock(_) => 9,
            Refusal::SameBlock(_) => 10,
            Refusal::WrongSpan => 11,
            Refusal::RaisedTooHigh => 12,
            Refusal::NoHeader(_) => 13,
            Refusal::WrongForm(_) => 14,
            Refusal::WrongVertices(_) => 15,
            Refusal::RepeatedName(_) => 16,
            Refusal::WrongCount => 17,
            Refusal::MemoryTooShort => 18,
            Refusal::TextTooLong => 19,
            Refusal::NoName(_) => 20,
            Refusal::Absent(_) => 21,
            Refusal::Present(_) => 22,
            Refusal::BelowHighest => 23,
            Refusal::NoRaiseLeft => 24,
            Refusal::TopTooHigh => 25,
            Refusal::ReachTooWide => 26,
            Refusal::TooFewRaises => 27,
        }
    }

    pub fn place(&self) -> u32
        ensures { result ≡ place self.now }
    {
        match *self {
            Refusal::TooManyBlocks(place)
            | Refusal::SideOutOfRange(place)
            | Refusal::NoHeader(place)
            | Refusal::WrongForm(place)
            | Refusal::WrongVertices(place)
            | Refusal::RepeatedName(place)
            | Refusal::NoName(place) => place,
            Refusal::UnknownLetter(block)
            | Refusal::WrongChild(block)
            | Refusal::ChildTwice(block)
            | Refusal::Unreached(block)
            | Refusal::NoSuchBlock(block)
            | Refusal::SameBlock(block)
            | Refusal::Absent(block)
            | Refusal::Present(block) => u32::from(block),
            Refusal::LengthsDiffer
            | Refusal::WrongRoot
            | Refusal::WrongSpan
            | Refusal::RaisedTooHigh
            | Refusal::WrongCount
            | Refusal::MemoryTooShort
            | Refusal::TextTooLong
            | Refusal::BelowHighest
            | Refusal::NoRaiseLeft
            | Refusal::TopTooHigh
            | Refusal::ReachTooWide
            | Refusal::TooFewRaises => 0,
        }
    }
}

impl fmt::Display for Refusal {
    ghost output = { λ r. Some (refusal_text r) };

    fn fmt<W: fmt::Write>(&self, f: &mut fmt::Formatter<W>) -> fmt::Result {
        write!(f, "refused {} at {}", self.number(), self.place())
    }
}
