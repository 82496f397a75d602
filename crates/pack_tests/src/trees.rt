// Every tree of up to four blocks with sides 1 and 2, with each numbering of its blocks.
use crate::grids::{extent, painted};
use crate::lists::{Tree, load};
use crate::tasks::{Task, check_over_each};
use packer::Extent;
use plan::Settled;
use rules::blocks::{Children, NONE, Size};
use std::alloc::{AllocError, Global};
use std::process::Abort;
use std::test::Fail;

// The last digit to base 5: a block, or none.
fn link(code: u32) -> u16 {
    match code % 5 {
        4 => NONE,
        block => block as u16,
    }
}

// Two digits to base 5 for each of n blocks.
fn links(heap: Global, n: u32, code: u32) -> Result<Vec<Children>, AllocError> {
    let mut children = Vec::new(heap);
    let mut rest = code;
    for _ in 0..n {
        children.push(Children {
            left: link(rest),
            right: link(rest / 5),
        })?;
        rest /= 25;
    }
    Ok(children)
}

// Two bits for each of n blocks.
fn sides(heap: Global, n: u32, code: u32) -> Result<Vec<Size>, AllocError> {
    let mut sizes = Vec::new(heap);
    let mut rest = code;
    for _ in 0..n {
        sizes.push(Size {
            width: 1 + rest % 2,
            height: 1 + rest / 2 % 2,
        })?;
        rest /= 4;
    }
    Ok(sizes)
}

// The plan of n blocks is packed as it is painted.
fn check_packed(
    rt: &impl Abort,
    heap: Global,
    plan: &Settled,
    n: u32,
    tree: Tree<'_>,
) -> Result<(), Fail> {
    let grid = painted(heap, tree)?;
    let heights = grid.columns();
    let (width, height) = extent(&heights);
    let task = Task {
        walk: 4,
        columns: 12,
        raises: 4,
        answer: Ok(Extent { width, height }),
        used: n,
        places: &grid.places,
        heights: &heights,
    };
    check_over_each(rt, heap, plan.plan(), task)
}

// Whether the links are those of a tree, which load tells. A tree is packed with all sides.
fn check_links(
    rt: &impl Abort,
    heap: Global,
    plan: &mut Settled,
    n: u32,
    children: &[Children],
    root: u16,
) -> Result<bool, Fail> {
    for code in 0..256u32 {
        let sizes = sides(heap, n, code)?;
        let tree = Tree {
            sizes: &sizes,
            children,
            root,
        };
        if !load(heap, plan, tree)? {
            return Ok(false);
        }
        check_packed(rt, heap, plan, n, tree)?;
    }
    Ok(true)
}

// How many lists of links of n blocks, with a root, are those of a tree.
fn count_trees(rt: &impl Abort, heap: Global, n: u32, lists: u32) -> Result<u32, Fail> {
    let mut plan = Settled::new(heap)?;
    let mut count = 0u32;
    for code in 0..lists {
        let children = links(heap, n, code / 4)?;
        if check_links(rt, heap, &mut plan, n, &children, (code % 4) as u16)? {
            count = count.saturating_add(1);
        }
    }
    Ok(count)
}

// The numbers of shapes are 1, 2, 5 and 14, those of numberings 1, 2, 6 and 24.
#[test]
fn up_to_four_blocks(rt: HostRuntime) -> Result<(), Fail> {
    for (n, lists, trees) in [(1, 25, 1), (2, 625, 4), (3, 15_625, 30), (4, 390_625, 336)] {
        assert_eq!(rt; count_trees(&rt, rt.alloc(), n, 4 * lists)?, trees);
    }
    Ok(())
}
