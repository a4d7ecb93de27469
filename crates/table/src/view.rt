// What a job sees: its table over any memory is a space.
ghost use Rattle.std.specs.Prelude.{◌≡◌, ℕ, ◌/◌, Bool, true, false};
ghost use Rattle.space.specs.Cells.{Cell, read_of, allow_of, store_of};
ghost use Rattle.table.specs.Tables.{cells_by, frame_by, entry_of};

use super::entry::{Entry, entry_at};
use super::sectors::Table;
use memory::Memory;
use memory::page::Sector;
use space::Space;
use stop::Fault;

// A table over a memory that is lent.
#[derive(Drop)]
pub struct View<'a, M: Memory> {
    pub memory: &'a mut M,
    pub table: Table,
}

impl<'a, M: Memory> View<'a, M> {
    fn entry(&self, at: u16) -> Entry
        ensures { result.bits ≡ entry_of self.now.table.entries (at / 4096) }
    {
        entry_at(&self.table.entries, Sector::of(at))
    }
}

impl<'a, M: Memory> Space for View<'a, M> {
    ghost cells = { λ v. cells_by v.table.entries (M.Memory.mem v.memory.now) };

    ghost frame = { λ v. frame_by v.memory.ghost_name v.table.entries (M.Memory.mem v.memory.now) };

    fn read(&self, at: u16) -> Result<u8, Fault> {
        let entry = self.entry(at);
        if !entry.access() {
            return Err(Fault::NoAccess);
        }
        Ok(self.memory.read(entry.page().address(at)))
    }

    // Asks the memory by writing: its refusal is the fault.
    fn write(&mut self, at: u16, b: u8) -> Result<(), Fault> {
        let entry = self.entry(at);
        if !entry.access() {
            return Err(Fault::NoAccess);
        }
        if !entry.writing() {
            return Err(Fault::NoWriting);
        }
        self.memory
            .write(entry.page().address(at), b)
            .map_err(|_| Fault::NoWriting)
    }
}
