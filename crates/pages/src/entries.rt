// The tests of a table, sector by sector.
ghost use Rattle.std.specs.Prelude.{◌≡◌, ℕ, Bool, not};
ghost use Rattle.pages.specs.Held.{named};
ghost use Rattle.refusal.specs.Judging.{first_from};
ghost use Rattle.pages.specs.Entries.{reserved_at, again_at, fixed_at};

use memory::Memory;
use memory::page::Page;
use table::entry::entry_of;

// Whether a sector below `below` has access to the page.
pub fn names_page(table: &[u8; 15], below: u32, page: Page) -> bool
    ensures { result ≡ named below table.now page.number }
{
    (0..below).any(|s| {
        let entry = entry_of(table, s);
        entry.access() && entry.page() == page
    })
}

// The first sector whose entry has a reserved bit set.
pub fn first_reserved(table: &[u8; 15]) -> Option<u32>
    ensures { result ≡ first_from 15 0 (reserved_at table.now) }
{
    (0..15).find(|s| entry_of(table, *s).reserved())
}

// The first sector whose entry names a page that a lower one names.
pub fn first_named_again(table: &[u8; 15]) -> Option<u32>
    ensures { result ≡ first_from 15 0 (again_at table.now) }
{
    (0..15).find(|s| {
        let entry = entry_of(table, *s);
        entry.access() && names_page(table, *s, entry.page())
    })
}

// The first sector whose entry allows writing into a page that takes none.
pub fn first_fixed<M: Memory>(table: &[u8; 15], memory: &M) -> Option<u32>
    ensures { result ≡ first_from 15 0 (fixed_at table.now (M.mem memory.now).takes) }
{
    (0..15).find(|s| {
        let entry = entry_of(table, *s);
        entry.access() && entry.writing() && !memory.takes_writes(entry.page())
    })
}
