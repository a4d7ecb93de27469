// Sets of pages.
ghost use Rattle.std.specs.Prelude.{◌≡◌, ℕ, ◌*◌, ◌%◌, ◌^◌, ◌<◌, Bool, true, false, ◌||◌, ◌==◌, bit_or};
ghost use Rattle.memory.specs.Memories.{in_set};

use super::page::Page;

// A set of pages, a bit for each.
#[derive(Clone, Copy, PartialEq, Eq, Debug)]
pub struct PageSet {
    pub(crate) mask: u16,
}

// The mask with the bit of a page set.
fn mask_with(mask: u16, page: Page) -> u16
    ensures { result ≡ bit_or mask ((1 * 2 ^ page.number) % 65536) }
{
    mask | (1 << page.number)
}

impl PageSet {
    pub fn none() -> PageSet
        ensures { (p : ℕ) → in_set result.mask p ≡ false }
    {
        PageSet { mask: 0 }
    }

    // The set with the page too.
    pub fn with(self, page: Page) -> PageSet
        ensures { (p : ℕ) → p < 16 → in_set result.mask p ≡ (p == page.number || in_set self.mask p) }
    {
        PageSet {
            mask: mask_with(self.mask, page),
        }
    }

    pub fn has(self, page: Page) -> bool
        ensures { result ≡ in_set self.mask page.number }
    {
        (self.mask >> page.number) & 1 == 1
    }
}
