// The block table: its rows and the root of its tree, with room for 512 blocks that is reserved when it is made.
ghost use Rattle.std.specs.Prelude.{◌≤◌, length, vec_capacity};

use crate::blocks::Block;

#[derive(Drop)]
pub struct Table {
    pub blocks: Vec<Block>,
    // a block's number, or NONE as docs/RULES.md has it in the lists of a load
    pub root: u16,
    ghost few: { length blocks.items ≤ 512 },
    ghost room: { 512 ≤ vec_capacity blocks },
}
