// The tests of a load, in their order.
ghost use Rattle.std.specs.Prelude.{◌≡◌, ◌≤◌, length, Some, None};
ghost use Rattle.rules.specs.declared.refusals.Refusal.{Refusal as Reason};
ghost use Rattle.rules.specs.Refusals.{answered};
ghost use Rattle.rules.specs.Loads.{first, wrong_children, wrong_root, room_refusal, block_refusal, tree_refusal, load_refusal};
ghost use Rattle.loading.specs.Told.{given, Told};

use crate::faults::{first_wrong_children, first_wrong_letter, first_wrong_size};
use crate::links::Links;
use rules::blocks::{Children, Lists, MOST_BLOCKS, NONE};
use rules::refusals::Refusal;

// The tests of lengths: too many blocks, lists that differ, walk memory too short.
fn room_refusal(lists: Lists<'_>, walk: usize) -> Result<(), Refusal>
    ensures { result ≡ answered (room_refusal (given lists.entry walk) None) tt }
{
    let blocks = lists.sizes.len();
    if blocks > MOST_BLOCKS {
        Err(Refusal::TooManyBlocks(0))
    } else if lists.letters.len() != blocks || lists.children.len() != blocks {
        Err(Refusal::LengthsDiffer)
    } else if walk < blocks {
        Err(Refusal::MemoryTooShort)
    } else {
        Ok(())
    }
}

// The tests of single blocks: sides, letters, child numbers.
#[tactic(auto, using(crate::proofs::Places::size_place, crate::proofs::Places::letter_place, crate::proofs::Places::children_place))]
fn block_refusal(lists: Lists<'_>) -> Result<(), Refusal>
    requires sizes { length lists.sizes.now ≤ 512 }
    requires letters { length lists.letters.now ≤ 512 }
    requires children { length lists.children.now ≤ 512 }
    ensures { result ≡ answered (block_refusal (given lists.entry 0) None) tt }
{
    if let Some(block) = first_wrong_size(lists.sizes) {
        return Err(Refusal::SideOutOfRange(block as u32));
    }
    if let Some(block) = first_wrong_letter(lists.letters) {
        return Err(Refusal::UnknownLetter(block as u16));
    }
    if let Some(block) = first_wrong_children(lists.children) {
        return Err(Refusal::WrongChild(block as u16));
    }
    Ok(())
}

fn wrong_root(blocks: usize, root: u16) -> bool
    ensures { result ≡ wrong_root blocks root }
{
    if blocks == 0 {
        root != NONE
    } else {
        blocks <= root as usize
    }
}

// The tests of the tree: its root, blocks named twice, blocks that are not reached.
#[tactic(auto, using(crate::proofs::Firsts::found_below))]
fn tree_refusal(children: &[Children], root: u16, walk: &mut [u16]) -> Result<(), Refusal>
    requires few { length children.now ≤ 512 }
    requires linked { first (wrong_children children.now) 0 (length children.now) ≡ None }
    requires room { length children.now ≤ length walk.old }
    ensures { result ≡ answered (tree_refusal children.now root) tt }
{
    if wrong_root(children.len(), root) {
        return Err(Refusal::WrongRoot);
    }
    let links = Links { children, root };
    if let Some(block) = links.first_named_twice() {
        return Err(Refusal::ChildTwice(block as u16));
    }
    if let Some(block) = links.first_unreached(walk) {
        return Err(Refusal::Unreached(block as u16));
    }
    Ok(())
}

// The first reason to refuse a load. The walk memory is written once the tests of lengths are passed.
pub fn load_refusal(lists: Lists<'_>, walk: &mut [u16]) -> Result<(), Refusal>
    ensures answer { result ≡ answered (load_refusal (given lists.entry (length walk.old))) tt }
    ensures walk { (reason : Reason) → room_refusal (given lists.entry (length walk.old)) None ≡ Some reason → walk.new ≡ walk.old }
    ensures told { Told lists.entry.children.now lists.entry.root result }
{
    room_refusal(lists, walk.len())?;
    block_refusal(lists)?;
    tree_refusal(lists.children, lists.root, walk)
}
