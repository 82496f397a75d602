// The lists that a load is given.
use crate::places::Place;
use plan::Settled;
use rules::blocks::{self, Children, Size};
use rules::refusals::Refusal;
use std::alloc::{AllocError, Global};

#[derive(Drop)]
pub struct Lists {
    pub sizes: Vec<Size>,
    pub letters: Vec<u8>,
    pub children: Vec<Children>,
    pub root: u16,
}

impl Lists {
    pub fn new(heap: Global, root: u16) -> Lists {
        Lists {
            sizes: Vec::new(heap),
            letters: Vec::new(heap),
            children: Vec::new(heap),
            root,
        }
    }

    // Puts one block behind the lists.
    pub fn push(
        &mut self,
        width: u32,
        height: u32,
        letter: u8,
        place: Place,
    ) -> Result<(), AllocError> {
        self.sizes.push(Size { width, height })?;
        self.letters.push(letter)?;
        self.children.push(place.children())?;
        Ok(())
    }

    // Blocks 2 wide and 3 high that stand in this tree, each with this letter.
    pub fn of_tree(
        heap: Global,
        root: u16,
        letter: u8,
        tree: &[Place],
    ) -> Result<Lists, AllocError> {
        let mut lists = Lists::new(heap, root);
        for place in tree.iter() {
            lists.push(2, 3, letter, *place)?;
        }
        Ok(lists)
    }

    pub fn load(&self, plan: &mut Settled, walk: &mut [u16]) -> Result<usize, Refusal> {
        let given = blocks::Lists {
            sizes: &self.sizes,
            letters: &self.letters,
            children: &self.children,
            root: self.root,
        };
        plan.load(given, walk)
    }
}
