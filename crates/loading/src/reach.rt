// The blocks that links lead to from the root.
ghost use Rattle.std.specs.Prelude.{◌≡◌, ℕ, ◌<◌, ◌≤◌, false, length, if◌then◌else◌, slice_index_or, None};
ghost use Rattle.rules.specs.Trees.{count};
ghost use Rattle.rules.specs.Links.{tree_of};
ghost use Rattle.rules.specs.Loads.{first, named_twice, unreached};
ghost use Rattle.stack.specs.Stacked.{held, room};
ghost use Rattle.loading.specs.Walks.{added};

use crate::links::Links;
use rules::blocks::{MOST_BLOCKS, NONE};
use stack::stack::Stack;

// Puts the block on the stack, if the link leads to one.
fn push_block(stack: &mut Stack<u16>, link: u16)
    requires { link < 65535 → length (held stack.old) < room stack.old }
    ensures room { room stack.new ≡ room stack.old }
    ensures held { held stack.new ≡ added link (held stack.old) }
{
    if link != NONE {
        let _ = stack.push(link);
    }
}

impl<'a> Links<'a> {
    // Marks the blocks that the links lead to from the root, by a walk with a stack in that memory.
    fn reached_blocks(&self, walk: &mut [u16]) -> [bool; MOST_BLOCKS]
        requires once { first (named_twice self.now.children.now self.now.root) 0 (length self.now.children.now) ≡ None }
        requires room { length self.now.children.now ≤ length walk.old }
        ensures { (k : ℕ) → (if slice_index_or result k false then 1 else 0) ≡ count k (tree_of self.now.children.now self.now.root) }
    {
        let mut reached = [false; MOST_BLOCKS];
        let mut stack = Stack::over(walk);
        push_block(&mut stack, self.root);
        while let Some(block) = stack.pop() {
            let i = block as usize;
            reached[i] = true;
            push_block(&mut stack, self.children[i].right);
            push_block(&mut stack, self.children[i].left);
        }
        reached
    }

    // The lowest block that no path of links leads to from the root, where no block is named twice.
    pub(crate) fn first_unreached(&self, walk: &mut [u16]) -> Option<usize>
        requires once { first (named_twice self.now.children.now self.now.root) 0 (length self.now.children.now) ≡ None }
        requires room { length self.now.children.now ≤ length walk.old }
        ensures { result ≡ first (unreached self.now.children.now self.now.root) 0 (length self.now.children.now) }
    {
        let reached = self.reached_blocks(walk);
        reached[..self.children.len()]
            .iter()
            .position(|is_reached| !*is_reached)
    }
}
