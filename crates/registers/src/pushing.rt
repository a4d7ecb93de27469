// Pushing and popping. The stack wraps: a seventeenth push takes the place of the oldest entry.
ghost use Rattle.std.specs.Prelude.{◌≡◌};
ghost use Rattle.registers.specs.Stacks.{no_stack, pushed, popped, on_top};

use super::stack::Stack;

impl Stack {
    pub(crate) fn empty() -> Stack
        ensures { result ≡ no_stack }
    {
        Stack {
            entries: [0; 16],
            top: 0,
        }
    }

    // The value goes into the next entry to fill, over what it held.
    pub fn push(&mut self, v: u16)
        ensures { self.new ≡ pushed self.old v }
    {
        self.entries[self.top as usize] = v;
        self.top = (self.top + 1) % 16;
    }

    // The entry before the next to fill, which keeps its value and is the next to fill then.
    pub fn pop(&mut self) -> u16
        ensures value { result ≡ on_top self.old }
        ensures after { self.new ≡ popped self.old }
    {
        self.top = (self.top + 15) % 16;
        self.entries[self.top as usize]
    }
}
