// A board: the lowest PAGES pages in a buffer for writing, of which all but the sealed take writes, and the others in a buffer for reading.
ghost use Rattle.std.specs.Prelude.{◌≡◌, ℕ, ◌*◌, []};
ghost use Rattle.boards.specs.Fills.{fill_answer, filled};

use super::fills::{judge, place};
use memory::page::Page;
use memory::sets::PageSet;
use refusal::Refusal;

// How many bytes so many pages have.
pub(crate) fn bytes_in(pages: u8) -> usize
    ensures { result ≡ pages * 4096 }
{
    pages as usize * 4096
}

// The board while it is filled, before any page is sealed. Sealing takes it, so nothing is filled afterwards.
#[derive(Drop)]
pub struct Filling<const PAGES: u8>;

// The board from then on: the pages that take no writes.
#[derive(Clone, Copy)]
pub struct Sealed<const PAGES: u8> {
    pages: PageSet,
}

// The buffers as a memory (in shown.rt). If either has another length it shows zeros and takes no writes. A board of sixteen pages has no other buffer.
#[derive(Drop)]
pub struct Board<'a, 'b, const PAGES: u8> {
    pub(crate) lower: &'a mut [u8],
    pub(crate) upper: &'b [u8],
    pub(crate) sealed: PageSet,
    ghost whole: { PAGES ≡ 16 → upper.now ≡ [] },
}

impl<const PAGES: u8> Filling<PAGES> {
    pub fn new() -> Filling<PAGES> {
        Filling
    }

    // Puts the bytes at an offset of a page of the buffer for writing. Refused with 1 at 0, or with 15 or 17 at the offset.
    pub fn fill(
        &self,
        lower: &mut [u8],
        page: Page,
        offset: u16,
        bytes: &[u8],
    ) -> Result<(), Refusal>
        ensures answer { result ≡ fill_answer PAGES lower.old page.number offset bytes.now }
        ensures after { lower.new ≡ filled result lower.old page.number offset bytes.now }
    {
        judge(
            lower.len() == bytes_in(PAGES),
            page.number() >= PAGES,
            offset,
            bytes,
        )?;
        place(lower, bytes_in(page.number()) + offset as usize, bytes);
        Ok(())
    }

    pub fn seal(self, pages: PageSet) -> Sealed<PAGES>
        ensures { result.pages ≡ pages }
    {
        Sealed { pages }
    }
}

impl<const PAGES: u8> Sealed<PAGES> {
    // The board over its buffers.
    pub(crate) fn over<'a, 'b>(self, lower: &'a mut [u8], upper: &'b [u8]) -> Board<'a, 'b, PAGES>
        requires { PAGES ≡ 16 → upper.now ≡ [] }
        ensures writing { result.lower.now ≡ lower.old }
        ensures reading { result.upper.now ≡ upper.now }
        ensures sealed { result.sealed ≡ self.entry.pages }
    {
        Board {
            lower,
            upper,
            sealed: self.pages,
        }
    }
}
