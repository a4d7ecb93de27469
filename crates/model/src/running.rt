// A run of a job over a memory, by its table.
ghost use Rattle.std.specs.Prelude.{◌≡◌, ℕ, ◌*◌, ◌≤◌};
ghost use Rattle.table.specs.Tables.{cells_by, frame_by};
ghost use Rattle.runs.specs.Runs.{ran, run_of, calls_in};

use memory::Memory;
use registers::processor::Processor;
use runs::{Ran, run};
use table::sectors::Table;
use table::view::View;

pub fn run_job<M: Memory>(
    memory: &mut M,
    table: Table,
    processor: &mut Processor,
    limit: u16,
) -> Ran
    ensures all { ran result processor.new (cells_by table.entries (M.mem memory.new)) ≡ run_of limit 0 0 processor.old (cells_by table.entries (M.mem memory.old)) }
    ensures kept { frame_by 0 table.entries (M.mem memory.new) ≡ frame_by 0 table.entries (M.mem memory.old) }
    ensures within { result.steps ≤ limit }
    ensures bounded { result.time ≤ result.steps * 4294967295 }
    ensures called { calls_in result.stop ≤ result.steps }
{
    let mut view = View { memory, table };
    run(processor, &mut view, limit)
}
