// The turns of a walk.
ghost use Rattle.std.specs.Prelude.{◌≡◌, ◌<◌, ◌≤◌, length};
ghost use Rattle.rules.specs.Trees.{size};
ghost use Rattle.stack.specs.Stacked.{held, room};
ghost use Rattle.plan.specs.Sound.{plan_of};
ghost use Rattle.plan.specs.Meaning.{rows, root_of};
ghost use Rattle.packer.specs.Walks.{put, visits};
ghost use Rattle.packer.specs.Ahead.{ahead};

use super::Walk;
use crate::spots::{Spot, Visit};
use plan::Plan;
use rules::blocks::NONE;
use stack::stack::Stack;

// Puts the block with its left edge on the stack, if the link leads to one.
fn push_present(stack: &mut Stack<Spot>, link: u16, left: u32)
    requires { link < 65535 → length (held stack.old) < room stack.old }
    ensures room { room stack.new ≡ room stack.old }
    ensures held { held stack.new ≡ put link left (held stack.old) }
{
    if link != NONE {
        let _ = stack.push(Spot { block: link, left });
    }
}

impl<'a> Walk<'a> {
    // From the root on, with the stack in that memory.
    pub(crate) fn new(plan: &'a Plan, memory: &'a mut [Spot]) -> Walk<'a>
        requires { size (plan_of (rows plan.now) (root_of plan.now)).tree ≤ length memory.old }
        ensures { ahead result ≡ visits (plan_of (rows plan.now) (root_of plan.now)) }
    {
        let mut stack = Stack::over(memory);
        push_present(&mut stack, plan.root(), 0);
        Walk {
            blocks: plan.blocks(),
            stack,
        }
    }
}

impl<'a> Iterator for Walk<'a> {
    ghost use Rattle.std.specs.Iterator.{YieldsFirst, item_count};

    type Item = Visit;

    ghost next_gives = { YieldsFirst ahead };

    ghost remaining = { item_count ahead };

    fn next(&mut self) -> Option<Visit> {
        let spot = self.stack.pop()?;
        let row = self.blocks[spot.block as usize];
        push_present(&mut self.stack, row.children.right, spot.left);
        push_present(
            &mut self.stack,
            row.children.left,
            spot.left + row.size.width,
        );
        Some(Visit {
            block: spot.block,
            left: spot.left,
            size: row.size,
        })
    }
}
