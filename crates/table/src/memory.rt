// Making and copying a table, and writing a row.
ghost use Rattle.std.specs.Prelude.{◌≡◌, [], IfOk, slice_set};
ghost use Rattle.table.specs.Tables.{at};
ghost use Rattle.table.specs.Rows.{turned_row};

use crate::tables::Table;
use rules::blocks::{MOST_BLOCKS, NONE, Size};
use std::alloc::{AllocError, Global};
use std::mem;

impl Table {
    // A table of no blocks.
    pub fn new(heap: Global) -> Result<Table, AllocError>
        ensures { IfOk result (λ t. (t.blocks.items ≡ []) × (t.root ≡ 65535)) }
    {
        Ok(Table {
            blocks: Vec::with_capacity(heap, MOST_BLOCKS)?,
            root: NONE,
        })
    }

    // Becomes a copy of that table, in its own memory.
    pub fn copy_from(&mut self, source: &Table)
        ensures items { self.new.blocks.items ≡ source.now.blocks.items }
        ensures root { self.new.root ≡ source.now.root }
    {
        self.blocks.clear();
        let _ = self.blocks.extend_from_slice(&source.blocks);
        self.root = source.root;
    }

    // Exchanges the width and the height of block i, if there is one.
    pub fn turn(&mut self, i: u16)
        ensures items { self.new.blocks.items ≡ slice_set self.old.blocks.items i (turned_row (at self.old.blocks.items i)) }
        ensures root { self.new.root ≡ self.old.root }
    {
        if let Some(block) = self.blocks.get_mut(i as usize) {
            let Size { width, height } = &mut block.size;
            mem::swap(width, height);
        }
    }
}
