// The branches at the edges of the tree, by the links of the table.
ghost use Rattle.std.specs.Prelude.{◌≡◌, ◌==◌};
ghost use Rattle.std.specs.Iterator.{YieldsFirst, item_count};
ghost use Rattle.rules.specs.Trees.{Tree};
ghost use Rattle.rules.specs.Sides.{child_on};
ghost use Rattle.rules.specs.Letters.{among, letter_kept};
ghost use Rattle.table.specs.Tables.{at, Holds};
ghost use Rattle.table.specs.Branches.{branch_of, end_of, childless, foot_kept, kept_by_links};
ghost use Rattle.table.specs.Walks.{ahead};

use crate::blocks::Block;
use rules::blocks::{Letter, NONE};
use rules::edits::Side;
use std::mem;

// The blocks from a link on, each the child of the one before on that side. No branch has more blocks than the table, so
// that it ends in any table.
#[derive(Clone, Copy)]
struct Branch<'a> {
    blocks: &'a [Block],
    side: Side,
    link: u16,
    left: usize,
}

impl<'a> Branch<'a> {
    fn new(blocks: &'a [Block], first: u16, side: Side) -> Branch<'a>
        ensures blocks { result.blocks.now ≡ blocks.now }
        ensures ahead { ahead result ≡ branch_of side blocks.now first }
    {
        Branch {
            blocks,
            side,
            link: first,
            left: blocks.len(),
        }
    }
}

#[tactic(auto, unfolding(crate::specs::Branches::branch))]
impl<'a> Iterator for Branch<'a> {
    type Item = u16;

    ghost next_gives = { YieldsFirst ahead };

    ghost remaining = { item_count ahead };

    fn next(&mut self) -> Option<u16> {
        let block = self.blocks.get(self.link as usize)?;
        self.left = self.left.checked_sub(1)?;
        Some(mem::replace(&mut self.link, block.children.on(self.side)))
    }
}

// Whether block i has no child on that side.
fn is_bare(blocks: &[Block], i: u16, side: Side) -> bool
    ensures { result ≡ (child_on side (at blocks.now i).children == 65535) }
{
    blocks
        .get(i as usize)
        .is_some_and(|b| b.children.on(side) == NONE)
}

impl<'a> Branch<'a> {
    // Its last block.
    fn end(self) -> u16
        ensures { result ≡ end_of (ahead self.entry) }
    {
        self.last().unwrap_or(NONE)
    }

    // Whether block i is on it.
    fn holds(mut self, i: u16) -> bool
        ensures { result ≡ among i (ahead self.entry) }
    {
        self.any(|block| i == block)
    }

    // Whether none of its blocks has a child on that side.
    fn is_childless(mut self, other: Side) -> bool
        ensures { result ≡ childless other self.entry.blocks.now (ahead self.entry) }
    {
        let blocks = self.blocks;
        self.all(|block| is_bare(blocks, block, other))
    }
}

// Whether i is on the branch that turns off at the end of the branch from the root on, where no block of the branch that turns off
// has a child on the first side.
fn kept_at_foot(blocks: &[Block], root: u16, side: Side, i: u16) -> bool
    ensures { result ≡ foot_kept side i blocks.now root }
{
    let foot = Branch::new(blocks, root, side).end();
    let turned = Branch::new(blocks, foot, side.opposite());
    turned.is_childless(side) && turned.holds(i)
}

// Whether block i keeps that letter.
pub fn is_letter_kept(blocks: &[Block], root: u16, letter: Letter, i: u16) -> bool
    ensures links { result ≡ kept_by_links letter i blocks.now root }
    ensures tree { (t : Tree) → Holds blocks.now root t → result ≡ letter_kept letter i t }
{
    match letter {
        Letter::Free => true,
        Letter::Bottom => Branch::new(blocks, root, Side::Left).holds(i),
        Letter::Left => Branch::new(blocks, root, Side::Right).holds(i),
        Letter::Right => kept_at_foot(blocks, root, Side::Left, i),
        Letter::Top => kept_at_foot(blocks, root, Side::Right, i),
    }
}
