// The entries of a sector table.
ghost use Rattle.std.specs.Prelude.{◌≡◌, ℕ, ◌/◌};
ghost use Rattle.table.specs.Tables.{entry_of, access_in, writing_in, reserved_in, page_in};

use memory::page::{Page, Sector};

// One entry: bits 0 and 1 are zero, bit 2 allows access, bit 3 allows writing, bits 4 to 7 give the page.
#[derive(Clone, Copy, PartialEq, Eq, Debug)]
pub struct Entry {
    pub bits: u8,
}

impl Entry {
    pub fn reserved(self) -> bool
        ensures { result ≡ reserved_in self.bits }
    {
        self.bits % 4 != 0
    }

    pub fn access(self) -> bool
        ensures { result ≡ access_in self.bits }
    {
        self.bits / 4 % 2 == 1
    }

    pub fn writing(self) -> bool
        ensures { result ≡ writing_in self.bits }
    {
        self.bits / 8 % 2 == 1
    }

    pub fn page(self) -> Page
        ensures { result.number ≡ page_in self.bits }
    {
        Page::try_from(self.bits / 16).unwrap()
    }
}

// The entry of the sector with this number; past the fifteen there is none, and no access.
pub fn entry_of(table: &[u8; 15], number: u32) -> Entry
    ensures { result.bits ≡ entry_of table.now number }
{
    Entry {
        bits: table.get(number as usize).copied().unwrap_or(0),
    }
}

// The entry of a sector.
pub fn entry_at(table: &[u8; 15], sector: Sector) -> Entry
    ensures { result.bits ≡ entry_of table.now sector.number }
{
    entry_of(table, sector.number() as u32)
}
