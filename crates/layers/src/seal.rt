// The seal layer: the bytes of the memory below, of whose pages a stated set takes no writes.
ghost use Rattle.std.specs.Prelude.{◌≡◌, ℕ};
ghost use Rattle.layers.specs.Layers.{seal_mem};

use memory::Memory;
use memory::page::Page;
use memory::sets::PageSet;
use refusal::{Ground, Refusal};

#[derive(Drop)]
pub struct SealLayer<M: Memory> {
    below: M,
    pages: PageSet,
}

impl<M: Memory> SealLayer<M> {
    pub fn over(below: M, pages: PageSet) -> SealLayer<M>
        ensures stands { result.below ≡ below }
        ensures sealed { result.pages ≡ pages }
    {
        SealLayer { below, pages }
    }

    // Gives back the memory that the layer stands on. Each layer has these two lines, fewer than a common type would have.
    pub fn into_below(self) -> M
        ensures { result ≡ self.below }
    {
        let SealLayer { below, .. } = self;
        below
    }
}

impl<M: Memory> Memory for SealLayer<M> {
    ghost mem = { λ l. seal_mem l.pages.mask (M.Memory.mem l.below) };

    fn read(&self, at: u16) -> u8 {
        self.below.read(at)
    }

    // The memory below is not asked about a page that is taken out.
    fn write(&mut self, at: u16, b: u8) -> Result<(), Refusal> {
        if self.pages.has(Page::of(at)) {
            return Err(Ground::NoWrites.at(at as u32));
        }
        self.below.write(at, b)
    }

    fn takes_writes(&self, page: Page) -> bool {
        !self.pages.has(page) && self.below.takes_writes(page)
    }
}
