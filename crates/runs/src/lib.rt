// Runs: step after step, up to a limit or a stop. As in a step, the processor and the space stay two parameters.
#![tactic(auto)]

ghost use Rattle.std.specs.Prelude.{◌≡◌, ℕ, ◌*◌, ◌≤◌};
ghost use Rattle.runs.specs.Runs.{ran, run_of, calls_in};
ghost use Rattle.runs.specs.Laws.{RunLaws, StepLaws};

use processor::step;
use registers::processor::Processor;
use space::Space;
use stop::Stop;

// What a run answers: the steps that counted, their nanoseconds, and why it stopped. That the time fits is said by clauses: with a
// ghost field, every definition that makes such a value would carry its proof.
#[derive(Clone, Copy)]
pub struct Ran {
    pub steps: u16,
    pub time: u64,
    pub stop: Stop,
}

// Step after step; the time fits, since there are at most 65,535 of them.
fn run_steps<S: Space>(cpu: &mut Processor, space: &mut S, limit: u16) -> Ran
    ensures all { ran result cpu.new (S.cells space.new) ≡ run_of limit 0 0 cpu.old (S.cells space.old) }
    ensures kept { S.frame space.new ≡ S.frame space.old }
    ensures bounded { result.time ≤ result.steps * 4294967295 }
{
    let mut time: u64 = 0;
    for steps in 0..limit {
        match step(cpu, space) {
            Ok(done) => {
                time += done.time as u64;
                if let Some(trap) = done.trap {
                    return Ran {
                        steps: steps + 1,
                        time,
                        stop: Stop::Trapped(trap),
                    };
                }
            }
            Err(fault) => return Ran {
                steps,
                time,
                stop: Stop::Faulted(fault),
            },
        }
    }
    Ran {
        steps: limit,
        time,
        stop: Stop::Limit,
    }
}

// At most `limit` steps. One that traps counts and ends the run, and one that faults ends it and does not count.
pub fn run<S: Space>(cpu: &mut Processor, space: &mut S, limit: u16) -> Ran
    ensures all { ran result cpu.new (S.cells space.new) ≡ run_of limit 0 0 cpu.old (S.cells space.old) }
    ensures kept { S.frame space.new ≡ S.frame space.old }
    ensures bounded { result.time ≤ result.steps * 4294967295 }
    ensures called { calls_in result.stop ≤ result.steps }
    ensures laws { RunLaws limit cpu.old (S.cells space.old) (ran result cpu.new (S.cells space.new)) }
    ensures each { StepLaws }
{
    run_steps(cpu, space, limit)
}
