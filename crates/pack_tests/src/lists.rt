// Loading a plan of free blocks.
use plan::Settled;
use rules::blocks::{Children, Lists, Size};
use std::alloc::{AllocError, Global};

// Blocks with their links.
#[derive(Clone, Copy)]
pub struct Tree<'a> {
    pub sizes: &'a [Size],
    pub children: &'a [Children],
    pub root: u16,
}

// Whether load takes the tree.
pub fn load(heap: Global, plan: &mut Settled, tree: Tree<'_>) -> Result<bool, AllocError> {
    let letters = vec![in heap; b'F'; tree.sizes.len()]?;
    let mut walk = vec![in heap; 0u16; tree.sizes.len()]?;
    let lists = Lists {
        sizes: tree.sizes,
        letters: &letters,
        children: tree.children,
        root: tree.root,
    };
    let answer = plan.load(lists, &mut walk);
    Ok(answer.is_ok())
}
