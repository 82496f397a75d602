// The plan in hand, to be read.
ghost use Rattle.std.specs.Prelude.{◌≡◌};
ghost use Rattle.plan.specs.Meaning.{rows, root_of, settled_kept};

use crate::plans::Plan;
use crate::states::{Settled, Tried};
use table::blocks::Block;

impl Plan {
    // The rows of the block table, one for each block, absent ones too.
    pub fn blocks(&self) -> &[Block]
        ensures { result.now ≡ rows self.now }
    {
        self.table.blocks.as_slice()
    }

    // The root's number, or NONE where no block is present.
    pub fn root(&self) -> u16
        ensures { result ≡ root_of self.now }
    {
        self.table.root
    }
}

impl Settled {
    // How many trials that were not empty have been kept since load.
    pub fn kept(&self) -> u32
        ensures { result ≡ settled_kept self.now }
    {
        self.kept
    }

    pub fn plan(&self) -> &Plan
        ensures { result.now ≡ self.now.plan }
    {
        &self.plan
    }
}

impl Tried {
    pub fn plan(&self) -> &Plan
        ensures { result.now ≡ self.now.plan }
    {
        &self.plan
    }
}
