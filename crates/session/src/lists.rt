// The lists that a script gathers for the next load.
use rules::blocks::{Children, Lists, Size};
use std::alloc::{AllocError, Global};

#[derive(Drop)]
pub struct Gathered {
    pub sizes: Vec<Size>,
    pub letters: Vec<u8>,
    pub children: Vec<Children>,
}

impl Gathered {
    pub fn new(heap: Global) -> Gathered {
        Gathered {
            sizes: Vec::new(heap),
            letters: Vec::new(heap),
            children: Vec::new(heap),
        }
    }

    // Puts one block behind all three lists.
    pub fn push(&mut self, size: Size, letter: u8, children: Children) -> Result<(), AllocError> {
        self.sizes.push(size)?;
        self.letters.push(letter)?;
        self.children.push(children)?;
        Ok(())
    }

    // The lists with that root.
    pub fn under(&self, root: u16) -> Lists<'_> {
        Lists {
            sizes: &self.sizes,
            letters: &self.letters,
            children: &self.children,
            root,
        }
    }

    pub fn clear(&mut self) {
        self.sizes.clear();
        self.letters.clear();
        self.children.clear();
    }
}
