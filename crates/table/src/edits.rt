// The edits on a table's own rows and root. The functions beside them take any rows, which a caller may have elsewhere.
ghost use Rattle.std.specs.Prelude.{◌≡◌, ◌<◌};
ghost use Rattle.rules.specs.Trees.{Tree, count, swap, take_out, put_in};
ghost use Rattle.rules.specs.Letters.{letter_kept};
ghost use Rattle.table.specs.Tables.{Holds, Keeps, FitsIn, has_both};

use crate::tables::Table;
use crate::{branches, puts, swaps, takes};
use rules::blocks::Letter;
use rules::edits::Side;

impl Table {
    // Exchanges the places of i and j in the tree.
    pub fn swap(&mut self, i: u16, j: u16)
        ensures keeps { Keeps self.old.blocks.items self.new.blocks.items }
        ensures tree { (t : Tree) → Holds self.old.blocks.items self.old.root t → has_both i j t → Holds self.new.blocks.items self.new.root (swap i j t) }
    {
        self.root = swaps::swap_places(self.blocks.as_mut_slice(), self.root, i, j);
    }

    // Takes i out of the tree.
    pub fn take_out(&mut self, i: u16)
        ensures keeps { Keeps self.old.blocks.items self.new.blocks.items }
        ensures tree { (t : Tree) → Holds self.old.blocks.items self.old.root t → 0 < count i t → Holds self.new.blocks.items self.new.root (take_out i t) }
    {
        self.root = takes::take_out(self.blocks.as_mut_slice(), self.root, i);
    }

    // Puts i in under j on that side, or alone into an empty tree.
    pub fn put_in(&mut self, i: u16, j: u16, side: Side)
        ensures keeps { Keeps self.old.blocks.items self.new.blocks.items }
        ensures tree { (t : Tree) → Holds self.old.blocks.items self.old.root t → FitsIn i j self.old.blocks.items t → Holds self.new.blocks.items self.new.root (put_in i j side t) }
    {
        self.root = puts::put_in(self.blocks.as_mut_slice(), self.root, i, j, side);
    }

    // Whether block i keeps that letter.
    pub fn is_letter_kept(&self, letter: Letter, i: u16) -> bool
        ensures tree { (t : Tree) → Holds self.now.blocks.items self.now.root t → result ≡ letter_kept letter i t }
    {
        branches::is_letter_kept(&self.blocks, self.root, letter, i)
    }
}
