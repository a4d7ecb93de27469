// What a load does to memory. Address and bytes stay two parameters, as the call has them: a struct of both would be taken apart at once.
ghost use Rattle.std.specs.Prelude.{◌≡◌, ℕ, ◌/◌, Bool, not};
ghost use Rattle.pages.specs.Held.{shown, bytes_of, back};
ghost use Rattle.pages.specs.Entries.{shut_at, refuses_at};
ghost use Rattle.pages.specs.Loads.{judge_load, laid, loaded_mem};

use super::clearing::set_byte;
use crate::sight::Sight;
use memory::Memory;
use refusal::{Ground, Refusal};
use table::entry::entry_of;
use table::sectors::Table;

// The grounds of a load, in their order.
fn judge<'x, M: Memory>(
    table: &'x [u8; 15],
    memory: &'x M,
    at: u16,
    bytes: &[u8],
) -> Result<(), Refusal>
    ensures { result ≡ judge_load at bytes.now (shown table.now (M.mem memory.now)) }
{
    let sight = Sight { table, memory };
    sight.judge(at, bytes.len())?;
    let from = at as u32;
    Ground::NoWrites.refuse_at(sight.first_unwritable(from, from + bytes.len() as u32))
}

// Puts the bytes at a job's addresses, each of which takes writes.
fn lay<M: Memory>(table: Table, memory: &mut M, at: u16, bytes: &[u8])
    requires { judge_load at bytes.now (shown table.entries (M.mem memory.old)) ≡ Ok tt }
    ensures { M.mem memory.new ≡ back table.entries (laid at bytes.now (bytes_of (shown table.entries (M.mem memory.old)))) (M.mem memory.old) }
{
    for (i, b) in bytes.iter().enumerate() {
        let a = (at as usize + i) as u16;
        let entry = entry_of(&table.entries, a as u32 / 4096);
        set_byte(memory, entry.page().address(a), *b);
    }
}

// Puts bytes from an address on, or refuses and changes nothing.
pub fn load<M: Memory>(table: Table, memory: &mut M, at: u16, bytes: &[u8]) -> Result<(), Refusal>
    ensures answer { result ≡ judge_load at bytes.now (shown table.entries (M.mem memory.old)) }
    ensures after { M.mem memory.new ≡ loaded_mem table.entries at bytes.now (M.mem memory.old) }
{
    judge(&table.entries, memory, at, bytes)?;
    lay(table, memory, at, bytes);
    Ok(())
}
