// What a job sees: its table over a memory that is lent for reading.
ghost use Rattle.std.specs.Prelude.{◌≡◌, ℕ, ◌+◌, ◌-◌, ◌≤◌, length};
ghost use Rattle.refusal.specs.Judging.{first_from};
ghost use Rattle.pages.specs.Held.{shown, bytes_of};
ghost use Rattle.pages.specs.Entries.{shut_at, refuses_at};
ghost use Rattle.pages.specs.Looks.{judge_look, seen};

use memory::Memory;
use refusal::{Ground, Refusal};
use table::entry::entry_of;

#[derive(Drop)]
pub(crate) struct Sight<'a, M: Memory> {
    pub(crate) table: &'a [u8; 15],
    pub(crate) memory: &'a M,
}

impl<'a, M: Memory> Sight<'a, M> {
    // The first of the addresses without access.
    fn first_shut(&self, from: u32, end: u32) -> Option<u32>
        ensures { result ≡ first_from (end - from) from (shut_at (shown self.now.table.now (M.mem self.now.memory.now))) }
    {
        (from..end).find(|a| !entry_of(self.table, *a / 4096).access())
    }

    // The first of the addresses that take no writes, with access or not.
    pub(crate) fn first_unwritable(&self, from: u32, end: u32) -> Option<u32>
        ensures { result ≡ first_from (end - from) from (refuses_at (shown self.now.table.now (M.mem self.now.memory.now))) }
    {
        (from..end).find(|a| {
            let entry = entry_of(self.table, *a / 4096);
            !(entry.access() && self.memory.takes_writes(entry.page()))
        })
    }

    // The grounds on which so many bytes are not shown.
    pub(crate) fn judge(&self, at: u16, count: usize) -> Result<(), Refusal>
        ensures { result ≡ judge_look at count (shown self.now.table.now (M.mem self.now.memory.now)) }
    {
        let from = at as u32;
        if count > 65536 - at as usize {
            return Err(Ground::OutOfRange.at(from));
        }
        Ground::NoAccess.refuse_at(self.first_shut(from, from + count as u32))
    }

    // What is seen at an address: 0 without access.
    fn byte_at(&self, at: u16) -> u8
        ensures { result ≡ bytes_of (shown self.now.table.now (M.mem self.now.memory.now)) at }
    {
        let entry = entry_of(self.table, at as u32 / 4096);
        if entry.access() {
            self.memory.read(entry.page().address(at))
        } else {
            0
        }
    }

    // Fills the buffer with the bytes from an address on.
    pub(crate) fn show(&self, at: u16, out: &mut [u8])
        requires { at + length out.old ≤ 65536 }
        ensures { out.new ≡ seen (length out.old) at (shown self.now.table.now (M.mem self.now.memory.now)) }
    {
        for (i, x) in out.iter_mut().enumerate() {
            *x = self.byte_at((at as usize + i) as u16);
        }
    }
}
