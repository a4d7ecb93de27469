// The processor: one step over any space. As in the block instructions, the state and the space stay two parameters: of a struct of both
// loans each function would have to say that it keeps them the same loans.
#![tactic(auto)]

ghost use Rattle.std.specs.Prelude.{◌≡◌};
ghost use Rattle.processor.specs.Steps.{stepped, step_of};

pub mod effects;
pub mod fetching;

use effects::execute;
use fetching::{fetch, fetch_operand};
use registers::processor::Processor;
use space::Space;
use stop::{Fault, Trap};
use times::time_of;

// A step that counts: its time in nanoseconds, and how it ends the run, if it does. `Carried` has a trap too, beside what the time depends
// on. No generic type for both: a time and a course are no values of one kind, as an instruction and its operand, both fetched, are.
#[derive(Clone, Copy)]
pub struct Done {
    pub time: u32,
    pub trap: Option<Trap>,
}

// One instruction with its selecting byte, if any. A fault leaves P at its first byte, and counts nothing.
pub fn step<S: Space>(cpu: &mut Processor, space: &mut S) -> Result<Done, Fault>
    ensures all { stepped result cpu.new (S.cells space.new) ≡ step_of cpu.old (S.cells space.old) }
    ensures kept { S.frame space.new ≡ S.frame space.old }
{
    let at = cpu.p;
    let fetched = fetch(space, at)?;
    let operand = fetch_operand(space, fetched.value, fetched.next)?;
    cpu.p = operand.next;
    // Tried as `inspect_err` that puts P back: what the processor is where the closure is not called stays open.
    match execute(cpu, space, fetched.value, operand.value) {
        Ok(carried) => Ok(Done {
            time: time_of(fetched.value, carried.course),
            trap: carried.trap,
        }),
        Err(fault) => {
            cpu.p = at;
            Err(fault)
        }
    }
}
