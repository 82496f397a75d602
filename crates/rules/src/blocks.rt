// Blocks as they are loaded: sizes, boundary letters and child pairs.
ghost use Rattle.std.specs.Prelude.{◌≡◌, Some, None, MatchResult};
ghost use Rattle.rules.specs.Plans.{side_fits, size_fits};
ghost use Rattle.rules.specs.Letters.{letter_of, letter_name};
ghost use Rattle.rules.specs.Sides.{child_on, with_child};

use crate::edits::Side;
use std::fmt;

// The number that stands for no block, as a child or as the root.
pub const NONE: u16 = 65535;

// The most blocks that a plan has.
pub const MOST_BLOCKS: usize = 512;

// The longest side of a block; the shortest is 1.
pub const LONGEST_SIDE: u32 = 131072;

// A block's width and height.
#[derive(Clone, Copy, PartialEq, Eq, Debug, Default)]
pub struct Size {
    pub width: u32,
    pub height: u32,
}

fn side_fits(side: u32) -> bool
    ensures { result ≡ side_fits side }
{
    (1..=LONGEST_SIDE).contains(&side)
}

impl Size {
    // Whether both sides are in range.
    pub fn fits(&self) -> bool
        ensures { result ≡ size_fits self.now }
    {
        side_fits(self.width) && side_fits(self.height)
    }
}

// The edge of the plan that a block is meant for.
#[derive(Clone, Copy, PartialEq, Eq, Debug)]
pub enum Letter {
    Free,
    Top,
    Bottom,
    Left,
    Right,
}

// A byte that stands for no letter.
#[derive(Clone, Copy, PartialEq, Eq, Debug)]
pub struct NoLetter(pub u8);

impl TryFrom<u8> for Letter {
    type Error = NoLetter;

    ghost try_from_gives = { λ byte r. MatchResult r (λ letter. letter_of byte ≡ Some letter) (λ e. (letter_of byte ≡ None) × (e.0 ≡ byte)) };

    fn try_from(byte: u8) -> Result<Letter, NoLetter> {
        match byte as char {
            'F' => Ok(Letter::Free),
            'T' => Ok(Letter::Top),
            'B' => Ok(Letter::Bottom),
            'L' => Ok(Letter::Left),
            'R' => Ok(Letter::Right),
            _ => Err(NoLetter(byte)),
        }
    }
}

impl fmt::Display for Letter {
    ghost output = { λ letter. Some (letter_name letter) };

    fn fmt<W: fmt::Write>(&self, f: &mut fmt::Formatter<W>) -> fmt::Result {
        f.write_str(match self {
            Letter::Free => "F",
            Letter::Top => "T",
            Letter::Bottom => "B",
            Letter::Left => "L",
            Letter::Right => "R",
        })
    }
}

// The left and the right child of a block: a block number, or NONE.
#[derive(Clone, Copy, PartialEq, Eq, Debug)]
pub struct Children {
    pub left: u16,
    pub right: u16,
}

impl Children {
    // No child on either side.
    pub const NONE: Children = Children {
        left: NONE,
        right: NONE,
    };

    // The child on that side.
    pub fn on(&self, side: Side) -> u16
        ensures { result ≡ child_on side self.now }
    {
        match side {
            Side::Left => self.left,
            Side::Right => self.right,
        }
    }

    // Makes that the child on that side.
    pub fn set(&mut self, side: Side, child: u16)
        ensures { self.new ≡ with_child side child self.old }
    {
        match side {
            Side::Left => self.left = child,
            Side::Right => self.right = child,
        }
    }
}

// What a load takes: a size, a letter as a byte and a child pair for each block, and the root.
#[derive(Clone, Copy, Debug)]
pub struct Lists<'a> {
    pub sizes: &'a [Size],
    pub letters: &'a [u8],
    pub children: &'a [Children],
    pub root: u16,
}
