// A block is put into the tree.
ghost use Rattle.std.specs.Prelude.{◌≡◌, ◌<◌, length};
ghost use Rattle.rules.specs.Trees.{Tree, put_in};
ghost use Rattle.table.specs.Tables.{Holds, Keeps, FitsIn, put, put_root, alone, under};

use crate::blocks::Block;
use rules::blocks::{Children, NONE};
use rules::edits::Side;

// Block i alone is in the tree.
fn put_alone(blocks: &mut [Block], i: u16)
    requires { i < length blocks.old }
    ensures { blocks.new ≡ alone i blocks.old }
{
    let b = &mut blocks[i as usize];
    b.children = Children::NONE;
    b.present = true;
}

// Block i stands under j on that side, over what stood there.
fn put_under(blocks: &mut [Block], i: u16, j: u16, side: Side)
    requires i_within { i < length blocks.old }
    requires j_within { j < length blocks.old }
    ensures { blocks.new ≡ under i j side blocks.old }
{
    let mut above = blocks[j as usize];
    let mut children = Children::NONE;
    children.set(side, above.children.on(side));
    above.children.set(side, i);
    let below = &mut blocks[i as usize];
    below.children = children;
    below.present = true;
    blocks[j as usize] = above;
}

// Puts i in under j on that side, or alone into an empty tree, and answers the tree's root.
pub fn put_in(blocks: &mut [Block], root: u16, i: u16, j: u16, side: Side) -> u16
    ensures after { blocks.new ≡ put i j side root blocks.old }
    ensures root { result ≡ put_root i root blocks.old }
    ensures keeps { Keeps blocks.old blocks.new }
    ensures tree { (t : Tree) → Holds blocks.old root t → FitsIn i j blocks.old t → Holds blocks.new result (put_in i j side t) }
{
    if i as usize >= blocks.len() {
        return root;
    }
    if root == NONE {
        put_alone(blocks, i);
        return i;
    }
    if (j as usize) < blocks.len() {
        put_under(blocks, i, j, side);
    }
    root
}
