// Links that lead to blocks or to none, and how often they name each block.
ghost use Rattle.std.specs.Prelude.{◌≡◌, ℕ, ◌+◌, ◌<◌, ◌≤◌, length, if◌then◌else◌, nat_eq, slice_index, false, None};
ghost use Rattle.rules.specs.Links.{named};
ghost use Rattle.rules.specs.Loads.{first, wrong_children, wrong_root, named_twice};
ghost use Rattle.loading.specs.Linked.{Link};

use rules::blocks::{Children, MOST_BLOCKS, NONE};

// The child pairs of a load and its root, which passed the tests of single links.
#[derive(Clone, Copy)]
pub(crate) struct Links<'a> {
    pub(crate) children: &'a [Children],
    pub(crate) root: u16,
    ghost few: { length children.now ≤ 512 },
    ghost linked: { first (wrong_children children.now) 0 (length children.now) ≡ None },
    ghost rooted: { wrong_root (length children.now) root ≡ false },
}

// Counts one more naming of the block that the link leads to, if it leads to one.
fn count_naming(counts: &mut [u16; MOST_BLOCKS], link: u16)
    requires link { Link 512 link }
    requires few { (k : ℕ) → k < 512 → slice_index counts.old k ≤ 1024 }
    ensures { (k : ℕ) → k < 512 → slice_index counts.new k ≡ slice_index counts.old k + (if nat_eq link k then 1 else 0) }
{
    if link != NONE {
        counts[link as usize] += 1;
    }
}

impl<'a> Links<'a> {
    // How often each block is named, as a child or as the root.
    fn namings(&self) -> [u16; MOST_BLOCKS]
        ensures { (k : ℕ) → k < 512 → slice_index result k ≡ named self.now.children.now self.now.root k }
    {
        let mut counts = [0; MOST_BLOCKS];
        count_naming(&mut counts, self.root);
        for pair in self.children {
            count_naming(&mut counts, pair.left);
            count_naming(&mut counts, pair.right);
        }
        counts
    }

    // The lowest block that is child twice, or child and root.
    pub(crate) fn first_named_twice(&self) -> Option<usize>
        ensures { result ≡ first (named_twice self.now.children.now self.now.root) 0 (length self.now.children.now) }
    {
        let counts = self.namings();
        counts[..self.children.len()]
            .iter()
            .position(|namings| *namings > 1)
    }
}
