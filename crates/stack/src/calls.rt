// What a stack does.
ghost use Rattle.std.specs.Prelude.{◌≡◌, [], length};
ghost use Rattle.stack.specs.Stacks.{items, room, Pushed, Popped, At};

use crate::Stack;

impl<'a, T: Copy> Stack<'a, T> {
    /// An empty stack in these slots.
    pub fn new(slots: &'a mut [T]) -> Stack<'a, T>
        ensures empty { items result ≡ [] }
        ensures room { room result ≡ length slots.old }
    {
        Stack { slots, len: 0 }
    }

    /// How many entries there are.
    pub fn len(&self) -> usize
        ensures { result ≡ length (items self.now) }
    {
        self.entries().len()
    }

    /// How many entries it can take.
    pub fn room(&self) -> usize
        ensures { result ≡ room self.now }
    {
        self.slots.len()
    }

    /// The entries, oldest first.
    pub fn entries(&self) -> &[T]
        ensures { result.now ≡ items self.now }
    {
        &self.slots[..self.len.min(self.slots.len())]
    }

    /// The i-th entry, the oldest being the 0th.
    pub fn get(&self, i: usize) -> Option<T>
        ensures { At (items self.now) i result }
    {
        self.entries().get(i).copied()
    }

    /// Adds an entry, or hands it back and changes nothing where there is no room.
    pub fn push(&mut self, x: T) -> Result<(), T>
        ensures { Pushed self.old x result self.new }
    {
        let n = self.len();
        if n >= self.slots.len() {
            return Err(x);
        }
        self.slots[n] = x;
        self.len = n + 1;
        Ok(())
    }

    /// Takes the newest entry.
    pub fn pop(&mut self) -> Option<T>
        ensures { Popped self.old result self.new }
    {
        self.len = self.len().checked_sub(1)?;
        Some(self.slots[self.len])
    }

    /// Takes all entries out.
    pub fn clear(&mut self)
        ensures items { items self.new ≡ [] }
        ensures room { room self.new ≡ room self.old }
    {
        self.len = 0;
    }
}
