// What an opening does to memory.
ghost use Rattle.std.specs.Prelude.{◌≡◌, ℕ, ◌/◌, Bool, true};
ghost use Rattle.memory.specs.Memories.{put};
ghost use Rattle.pages.specs.Held.{back, zeroed, zeroed_page};

use memory::Memory;
use memory::page::Page;
use table::entry::Entry;

// Puts a byte where the page takes writes.
pub(crate) fn set_byte<M: Memory>(memory: &mut M, at: u16, b: u8)
    requires { (M.mem memory.old).takes (at / 4096) ≡ true }
    ensures { M.mem memory.new ≡ record { byte = put (M.mem memory.old).byte at b; takes = (M.mem memory.old).takes } }
{
    let _ = memory.write(at, b);
}

// Puts 0 into each byte of a page that takes writes.
fn clear_page<M: Memory>(memory: &mut M, page: Page)
    requires { (M.mem memory.old).takes page.number ≡ true }
    ensures { M.mem memory.new ≡ record { byte = zeroed_page page.number 4096 (M.mem memory.old).byte; takes = (M.mem memory.old).takes } }
{
    for i in 0..4096u16 {
        set_byte(memory, page.address(i), 0);
    }
}

// Puts 0 into each byte of the pages that take writes and that the table gives access to.
pub fn clear_pages<M: Memory>(table: &[u8; 15], memory: &mut M)
    ensures { M.mem memory.new ≡ back table.now (λ a. 0) (M.mem memory.old) }
{
    for bits in table {
        let entry = Entry { bits: *bits };
        let page = entry.page();
        if entry.access() && memory.takes_writes(page) {
            clear_page(memory, page);
        }
    }
}
