// The rows of a load.
ghost use Rattle.std.specs.Prelude.{◌≡◌, ◌≤◌, length};
ghost use Rattle.plan.specs.Rows.{loaded_row, loaded_rows};

use rules::blocks::{Children, Letter, Lists, Size};
use table::Table;
use table::blocks::Block;

fn row(size: Size, letter: u8, children: Children) -> Block
    ensures { result ≡ loaded_row size letter children }
{
    Block {
        size,
        letter: Letter::try_from(letter).unwrap_or(Letter::Free),
        children,
        present: true,
    }
}

// Fills the table with the blocks of lists that passed the tests of load, all present.
pub(crate) fn fill(table: &mut Table, lists: Lists<'_>)
    requires few { length lists.sizes.now ≤ 512 }
    requires letters { length lists.letters.now ≡ length lists.sizes.now }
    requires children { length lists.children.now ≡ length lists.sizes.now }
    ensures items { table.new.blocks.items ≡ loaded_rows lists.entry.sizes.now lists.entry.letters.now lists.entry.children.now }
    ensures root { table.new.root ≡ lists.entry.root }
{
    table.blocks.clear();
    for ((size, letter), children) in lists.sizes.iter().zip(lists.letters).zip(lists.children) {
        table.blocks.push_reserved(row(*size, *letter, *children));
    }
    table.root = lists.root;
}
