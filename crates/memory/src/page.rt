// The numbers of pages and of sectors: one of sixteen, of memory or of a job's addresses.
ghost use Rattle.std.specs.Prelude.{ℕ, ◌<◌};

use std::fmt;

pub const MEMORY: u8 = 0;

pub const JOB: u8 = 1;

// One of sixteen parts of 4,096 addresses each. `SPACE` says of which addresses, so that a page is no sector.
#[derive(Clone, Copy, PartialEq, Eq)]
pub struct Sixteenth<const SPACE: u8> {
    pub(crate) number: u8,
    ghost small: { number < 16 },
}

// As `Page { number: 3 }` or `Sector { number: 3 }`. By hand, since a derived one would print both by the name of the generic struct.
impl<const SPACE: u8> fmt::Debug for Sixteenth<SPACE> {
    fn fmt<W: fmt::Write>(&self, f: &mut fmt::Formatter<W>) -> fmt::Result {
        let name = if SPACE == MEMORY { "Page" } else { "Sector" };
        f.debug_struct(name).field("number", &self.number).finish()
    }
}

// A page of memory.
pub type Page = Sixteenth<MEMORY>;

// A sector of a job's addresses.
pub type Sector = Sixteenth<JOB>;
