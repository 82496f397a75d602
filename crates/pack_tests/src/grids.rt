// Packing by painting cells: each block falls from above, row by row, until it meets a painted cell or the floor.
use crate::lists::Tree;
use crate::tasks::OLD_PLACE;
use rules::blocks::{NONE, Size};
use rules::placements::Placement;
use std::alloc::{AllocError, Global};

// 12 rows of 12 cells, the lowest row first, and where each block came to rest.
#[derive(Clone, Copy)]
pub struct Grid {
    cells: [bool; 144],
    pub places: [Placement; 5],
}

fn holds(place: Placement, cell: u32) -> bool {
    let x = cell % 12;
    let y = cell / 12;
    place.x <= x
        && x < place.x.saturating_add(place.width)
        && place.y <= y
        && y < place.y.saturating_add(place.height)
}

impl Grid {
    fn is_free(&self, place: Placement) -> bool {
        !(0..144)
            .zip(&self.cells)
            .any(|(i, painted)| *painted && holds(place, i))
    }

    fn paint(&mut self, place: Placement) {
        for (i, painted) in (0..144).zip(&mut self.cells) {
            *painted |= holds(place, i);
        }
    }

    // Where a block comes to rest that falls from row 8.
    fn rest(&self, x: u32, size: Size) -> Placement {
        let mut place = Placement {
            x,
            y: 8,
            width: size.width,
            height: size.height,
        };
        for y in (0..8u32).rev() {
            let lower = Placement { y, ..place };
            if !self.is_free(lower) {
                break;
            }
            place = lower;
        }
        place
    }

    // Answers the block's right edge.
    fn drop_block(&mut self, block: u16, x: u32, sizes: &[Size]) -> u32 {
        let Some(size) = sizes.get(block as usize) else {
            return x;
        };
        let place = self.rest(x, *size);
        self.paint(place);
        if let Some(slot) = self.places.get_mut(block as usize) {
            *slot = place;
        }
        x.saturating_add(size.width)
    }

    // The heights of the columns: the row above the highest painted cell.
    pub fn columns(&self) -> [u32; 12] {
        let mut columns = [0; 12];
        for (row, cells) in (1..13).zip(self.cells.chunks(12)) {
            for (column, painted) in columns.iter_mut().zip(cells) {
                if *painted {
                    *column = row;
                }
            }
        }
        columns
    }
}

// The rightmost column that is not empty gives the width, and the highest one the height.
pub fn extent(columns: &[u32; 12]) -> (u32, u32) {
    let width = columns
        .iter()
        .rposition(|top| *top > 0)
        .map_or(0, |c| c as u32 + 1);
    let height = columns.iter().copied().max().unwrap_or(0);
    (width, height)
}

// Drops the blocks in depth-first order, a left child at its parent's right edge, a right child at its left edge.
pub fn painted(heap: Global, tree: Tree<'_>) -> Result<Grid, AllocError> {
    let mut grid = Grid {
        cells: [false; 144],
        places: [OLD_PLACE; 5],
    };
    let mut pending = vec![in heap; (tree.root, 0u32)]?;
    // each of four blocks, and the empty places under them
    for _ in 0..9 {
        let (block, x) = pending.pop().unwrap_or((NONE, 0));
        let Some(pair) = tree.children.get(block as usize) else {
            continue;
        };
        let right = grid.drop_block(block, x, tree.sizes);
        pending.push((pair.right, x))?;
        pending.push((pair.left, right))?;
    }
    Ok(grid)
}
