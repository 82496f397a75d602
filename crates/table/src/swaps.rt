// Two blocks exchange their places in the tree.
ghost use Rattle.std.specs.Prelude.{◌≡◌, if◌then◌else◌};
ghost use Rattle.rules.specs.Trees.{Tree, exchange, swap};
ghost use Rattle.table.specs.Tables.{Holds, Keeps, swapped, both_within, has_both};

use crate::blocks::Block;
use crate::renames::{Exchange, Renaming, rename_links};

// Exchanges the places of i and j in the tree, and answers its root.
pub fn swap_places(blocks: &mut [Block], root: u16, i: u16, j: u16) -> u16
    ensures after { blocks.new ≡ swapped i j blocks.old }
    ensures root { result ≡ (if both_within i j blocks.old then exchange i j root else root) }
    ensures keeps { Keeps blocks.old blocks.new }
    ensures tree { (t : Tree) → Holds blocks.old root t → has_both i j t → Holds blocks.new result (swap i j t) }
{
    if i as usize >= blocks.len() || j as usize >= blocks.len() {
        return root;
    }
    let exchange = Exchange(i, j);
    rename_links(blocks, &exchange);
    let a = blocks[i as usize];
    let b = blocks[j as usize];
    blocks[i as usize] = Block {
        children: b.children,
        ..a
    };
    blocks[j as usize] = Block {
        children: a.children,
        ..b
    };
    exchange.rename(root)
}
