// The arguments of a command.
ghost use Rattle.std.specs.Prelude.{◌≡◌, Option};
ghost use Rattle.words.specs.Arguments.{no_more, one, two, three};
ghost use Rattle.words.specs.Numbers.{number_of, number_up_to, block_of};
ghost use Rattle.words.specs.Words.{Word, words, byte_of, side_of, Taken};

use crate::split::{Spaced, next_word};
use crate::word::{number_of, number_up_to};
use rules::edits::Side;

// What an argument can be, and how a word says it.
pub trait Argument {
    type Value: Copy;

    ghost says: { Word → Option Self.Value };

    fn from_word(word: &[u8]) -> Option<Self::Value>
        ensures { result ≡ says word.now };
}

// A number of 1 to 9 decimal digits.
pub struct Number;

impl Argument for Number {
    type Value = u32;

    ghost says = { number_of };

    fn from_word(word: &[u8]) -> Option<u32> {
        number_of(word)
    }
}

// Such a number that is at most so large.
pub struct UpTo<const MOST: u32>;

impl<const MOST: u32> Argument for UpTo<MOST> {
    type Value = u32;

    ghost says = { number_up_to MOST };

    fn from_word(word: &[u8]) -> Option<u32> {
        number_up_to(word, MOST)
    }
}

// A block, a child or the root.
pub struct Block;

impl Argument for Block {
    type Value = u16;

    ghost says = { block_of };

    fn from_word(word: &[u8]) -> Option<u16> {
        u16::try_from(number_of(word)?).ok()
    }
}

// Any one byte.
pub struct Byte;

impl Argument for Byte {
    type Value = u8;

    ghost says = { byte_of };

    fn from_word(word: &[u8]) -> Option<u8> {
        match word {
            [b] => Some(*b),
            _ => None,
        }
    }
}

// left or right
impl Argument for Side {
    type Value = Side;

    ghost says = { side_of };

    fn from_word(word: &[u8]) -> Option<Side> {
        match word {
            b"left" => Some(Side::Left),
            b"right" => Some(Side::Right),
            _ => None,
        }
    }
}

// The first argument, and the arguments behind it.
#[tactic(auto, unfolding(crate::specs::Words::words))]
pub fn first<A: Argument>(args: &[u8]) -> Option<(A::Value, &[u8])>
    ensures { Taken A.says (words args.now) result }
{
    let (word, rest) = next_word::<Spaced>(args)?;
    Some((A::from_word(word)?, rest))
}

// The first argument where it is a number that is at most so large, by a limit that may be known at run time alone.
#[tactic(auto, unfolding(crate::specs::Words::words))]
pub fn up_to(args: &[u8], most: u32) -> Option<(u32, &[u8])>
    ensures { Taken (number_up_to most) (words args.now) result }
{
    let (word, rest) = next_word::<Spaced>(args)?;
    Some((number_up_to(word, most)?, rest))
}

// Whether no argument is left.
#[tactic(auto, unfolding(crate::specs::Words::words))]
pub fn no_more(args: &[u8]) -> bool
    ensures { result ≡ no_more (words args.now) }
{
    next_word::<Spaced>(args).is_none()
}

// All the arguments of a command, by what each is.

pub fn one<A: Argument>(args: &[u8]) -> Option<A::Value>
    ensures { result ≡ one A.says (words args.now) }
{
    let (a, rest) = first::<A>(args)?;
    no_more(rest).then_some(a)
}

pub fn two<A: Argument, B: Argument>(args: &[u8]) -> Option<(A::Value, B::Value)>
    ensures { result ≡ two A.says B.says (words args.now) }
{
    let (a, rest) = first::<A>(args)?;
    let (b, rest) = first::<B>(rest)?;
    no_more(rest).then_some((a, b))
}

pub fn three<A: Argument, B: Argument, C: Argument>(
    args: &[u8],
) -> Option<(A::Value, B::Value, C::Value)>
    ensures { result ≡ three A.says B.says C.says (words args.now) }
{
    let (a, rest) = first::<A>(args)?;
    let (b, rest) = first::<B>(rest)?;
    let (c, rest) = first::<C>(rest)?;
    no_more(rest).then_some((a, b, c))
}
