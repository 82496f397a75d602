// What a stack does.
ghost use Rattle.std.specs.Prelude.{◌≡◌, [], reverse, length};
ghost use Rattle.stack.specs.Stacked.{held, stacked, memory, room, loan, Pushed, Popped};

use super::Stack;

#[tactic(auto, using(crate::proofs::Stacks::held_length), unfolding(crate::specs::Stacked::held, crate::specs::Stacked::stacked, crate::specs::Stacked::memory, crate::specs::Stacked::room, crate::specs::Stacked::loan))]
impl<'a, T: Copy> Stack<'a, T> {
    // An empty stack over that memory.
    pub fn over(items: &'a mut [T]) -> Stack<'a, T>
        ensures held { held result ≡ [] }
        ensures room { room result ≡ length items.old }
        ensures memory { memory result ≡ items.old }
        ensures loan { loan result ≡ items.entry.ghost_name }
    {
        Stack { items, len: 0 }
    }

    // Puts the item on top, or hands it back where the memory is full.
    pub fn push(&mut self, item: T) -> Result<(), T>
        ensures pushed { Pushed self.old item result self.new }
        ensures loan { loan self.new ≡ loan self.old }
    {
        if self.len == self.items.len() {
            return Err(item);
        }
        self.items[self.len] = item;
        self.len += 1;
        Ok(())
    }

    // Takes the newest item off.
    pub fn pop(&mut self) -> Option<T>
        ensures popped { Popped self.old result self.new }
        ensures loan { loan self.new ≡ loan self.old }
    {
        if self.len == 0 {
            return None;
        }
        self.len -= 1;
        Some(self.items[self.len])
    }

    // Takes all items off. The memory is not written.
    pub fn clear(&mut self)
        ensures held { held self.new ≡ [] }
        ensures room { room self.new ≡ room self.old }
        ensures memory { memory self.new ≡ memory self.old }
        ensures loan { loan self.new ≡ loan self.old }
    {
        self.len = 0;
    }

    // How many items there are.
    pub fn len(&self) -> usize
        ensures { result ≡ length (held self.now) }
    {
        self.as_slice().len()
    }

    // How many items there is room for.
    pub fn room(&self) -> usize
        ensures { result ≡ room self.now }
    {
        self.items.len()
    }

    // The items, the newest last.
    pub fn as_slice(&self) -> &[T]
        ensures stacked { result.now ≡ stacked self.now }
        ensures held { held self.now ≡ reverse result.now }
    {
        &self.items[..self.len]
    }
}
