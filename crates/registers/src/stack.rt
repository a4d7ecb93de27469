// The stack. It wraps and has no length: `top` is the machine's own, and so is the size.
ghost use Rattle.std.specs.Prelude.{ℕ, ◌<◌};

// The pushdown stack: sixteen entries, and the place of the next to fill.
#[derive(Clone, Copy)]
pub struct Stack {
    pub entries: [u16; 16],
    pub top: u8,
    ghost small: { top < 16 },
}
