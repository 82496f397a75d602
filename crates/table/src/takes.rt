// A block is taken out of the tree.
ghost use Rattle.std.specs.Prelude.{◌≡◌, ◌<◌, length};
ghost use Rattle.rules.specs.Trees.{Tree, count, take_out};
ghost use Rattle.table.specs.Tables.{Holds, Keeps, lowered, heir, joined, taken, taken_root};

use crate::blocks::Block;
use crate::renames::{Redirect, Renaming, rename_links};
use rules::blocks::{Children, NONE};

// Hangs the subtree at `first` under `start` as its left child, and what stood there under the next block of the
// rightmost branch from `start` on, and so on to that branch's end. It takes no more steps than there are rows, so that it
// ends in any table.
fn lower(blocks: &mut [Block], first: u16, start: u16)
    ensures { blocks.new ≡ lowered (length blocks.old) first start blocks.old }
{
    let mut hung = first;
    let mut under = start;
    for _ in 0..blocks.len() {
        if under as usize >= blocks.len() {
            return;
        }
        let Children { left, right } = blocks[under as usize].children;
        if right == NONE {
            blocks[under as usize].children = Children {
                left: hung,
                right: left,
            };
            return;
        }
        blocks[under as usize].children.left = hung;
        if left == NONE {
            return;
        }
        hung = left;
        under = right;
    }
}

// Joins the two subtrees of a block that is taken out, and answers the root of what takes its place.
fn join(blocks: &mut [Block], left: u16, right: u16) -> u16
    ensures value { result ≡ heir left right }
    ensures after { blocks.new ≡ joined left right blocks.old }
{
    if right == NONE {
        return left;
    }
    let raised = right;
    if left != NONE {
        lower(blocks, left, raised);
    }
    raised
}

// Takes i out of the tree, and answers the tree's root.
pub fn take_out(blocks: &mut [Block], root: u16, i: u16) -> u16
    ensures after { blocks.new ≡ taken i blocks.old }
    ensures root { result ≡ taken_root i root blocks.old }
    ensures keeps { Keeps blocks.old blocks.new }
    ensures tree { (t : Tree) → Holds blocks.old root t → 0 < count i t → Holds blocks.new result (take_out i t) }
{
    if i as usize >= blocks.len() {
        return root;
    }
    let Children { left, right } = blocks[i as usize].children;
    let heir = join(blocks, left, right);
    let redirect = Redirect(i, heir);
    rename_links(blocks, &redirect);
    let b = &mut blocks[i as usize];
    b.children = Children::NONE;
    b.present = false;
    redirect.rename(root)
}
