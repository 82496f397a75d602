// A table in which from the root just one path of links leads to each present block, and none to an absent one, and in which
// every side is in range.
ghost use Rattle.std.specs.Prelude.{◌≡◌, true};
ghost use Rattle.plan.specs.Sound.{Sound, all_fit};

use table::Table;

#[derive(Drop)]
pub struct Plan {
    pub(crate) table: Table,
    ghost sound: { Sound table.blocks.items table.root },
    ghost fit: { all_fit table.blocks.items ≡ true },
}
