// Every link of the table gets another name.
ghost use Rattle.std.specs.Prelude.{◌≡◌, ℕ, map};
ghost use Rattle.table.specs.Tables.{relinked, point};
ghost use Rattle.rules.specs.Trees.{exchange};

use crate::blocks::Block;

// What becomes of a link.
pub trait Renaming {
    ghost renames: { Self → ℕ → ℕ };

    fn rename(&self, link: u16) -> u16
        ensures { result ≡ renames self.now link };
}

// Each of two blocks for the other.
#[derive(Clone, Copy)]
pub struct Exchange(pub u16, pub u16);

impl Renaming for Exchange {
    ghost renames = { λ e. exchange e.0 e.1 };

    fn rename(&self, link: u16) -> u16 {
        if link == self.0 {
            self.1
        } else if link == self.1 {
            self.0
        } else {
            link
        }
    }
}

// The second for the first.
#[derive(Clone, Copy)]
pub struct Redirect(pub u16, pub u16);

impl Renaming for Redirect {
    ghost renames = { λ e. point e.0 e.1 };

    fn rename(&self, link: u16) -> u16 {
        if link == self.0 { self.1 } else { link }
    }
}

pub fn rename_links<R: Renaming>(blocks: &mut [Block], by: &R)
    ensures { blocks.new ≡ map (relinked (R.renames by.now)) blocks.old }
{
    for b in blocks.iter_mut() {
        b.children.left = by.rename(b.children.left);
        b.children.right = by.rename(b.children.right);
    }
}
