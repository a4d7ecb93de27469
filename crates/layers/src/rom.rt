// The ROM layer: one page shows bytes for reading, and the other pages are those of the memory below.
ghost use Rattle.std.specs.Prelude.{◌≡◌, Bool, ℕ, eqb};
ghost use Rattle.memory.specs.Memories.{write_answer, stored};
ghost use Rattle.layers.specs.Layers.{rom_byte, rom_mem, rom_below};

use memory::Memory;
use memory::page::Page;
use refusal::{Ground, Refusal};

const SIZE: usize = 4096;

// The bytes are lent for reading, and should be 4,096: of any other number the page shows zeros. It takes no writes either way.
// The page is its number: tried with a `Page`, a call with a layer that holds one beside a lent buffer gets no proof.
#[derive(Drop)]
pub struct RomLayer<'a, M: Memory> {
    below: M,
    page: u8,
    bytes: &'a [u8],
}

impl<'a, M: Memory> RomLayer<'a, M> {
    pub fn over(below: M, page: Page, bytes: &'a [u8]) -> RomLayer<'a, M>
        ensures stands { result.below ≡ below }
        ensures place { result.page ≡ page.number }
        ensures shown { result.bytes.now ≡ bytes.now }
    {
        RomLayer {
            below,
            page: page.number(),
            bytes,
        }
    }

    // Gives back the memory that the layer stands on. Each layer has these two lines, fewer than a common type would have.
    pub fn into_below(self) -> M
        ensures { result ≡ self.entry.below }
    {
        let RomLayer { below, .. } = self;
        below
    }

    // Whether the page is the layer's own.
    fn owns(&self, page: Page) -> bool
        ensures { result ≡ eqb page.number self.now.page }
    {
        page.number() == self.page
    }

    // The layer's own byte at the place of an address within its page.
    fn own_byte(&self, at: u16) -> u8
        ensures { result ≡ rom_byte self.now.bytes.now at }
    {
        if self.bytes.len() == SIZE {
            self.bytes[at as usize % SIZE]
        } else {
            0
        }
    }
}

impl<'a, M: Memory> Memory for RomLayer<'a, M> {
    ghost mem = { λ l. rom_mem l.page l.bytes.now (M.Memory.mem l.below) };

    fn read(&self, at: u16) -> u8 {
        if self.owns(Page::of(at)) {
            self.own_byte(at)
        } else {
            self.below.read(at)
        }
    }

    // The memory below is not asked about the layer's own page.
    fn write(&mut self, at: u16, b: u8) -> Result<(), Refusal>
        ensures answer { result ≡ write_answer (rom_mem self.old.page self.old.bytes.now (M.Memory.mem self.old.below)) at }
        ensures after { rom_mem self.new.page self.new.bytes.now (M.Memory.mem self.new.below) ≡ stored (rom_mem self.old.page self.old.bytes.now (M.Memory.mem self.old.below)) at b }
        ensures below { M.Memory.mem self.new.below ≡ rom_below self.old.page (M.Memory.mem self.old.below) at b }
    {
        if self.owns(Page::of(at)) {
            return Err(Ground::NoWrites.at(at as u32));
        }
        self.below.write(at, b)
    }

    fn takes_writes(&self, page: Page) -> bool {
        !self.owns(page) && self.below.takes_writes(page)
    }
}
