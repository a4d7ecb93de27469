// The calls of a script, made at the desk. The desk and the memory stay two parameters, since the memory is lent at each call.
ghost use Rattle.std.specs.Prelude.{◌≡◌, ℕ, vec_len};
ghost use Rattle.memory.specs.Memories.{Mem};
ghost use Rattle.model.specs.Calls.{opens, asks, loads, runs as asks_run, looks, states, closes};
ghost use Rattle.model.specs.Worlds.{world_of, does};
ghost use Rattle.console.specs.Answers.{says, Answered};

use crate::answers::{Answer, Denial, Finished};
use desk::desk::Desk;
use memory::Memory;
use script::commands::Call;

fn run<M: Memory>(desk: &mut Desk, memory: &mut M, job: u8, limit: u16) -> Result<Answer, Denial>
    ensures { does (asks job (asks_run limit)) (world_of desk.old.engine.jobs (M.mem memory.old)) ≡ record { world = world_of desk.new.engine.jobs (M.mem memory.new); answer = says result } }
{
    let run = desk.run(memory, job, limit)?;
    Ok(Answer::Ran(Finished {
        job,
        run,
        owed: desk.owed(job),
    }))
}

fn look<M: Memory>(
    desk: &Desk,
    memory: &M,
    job: u8,
    at: u16,
    mut buffer: Vec<u8>,
) -> Result<Answer, Denial>
    ensures { does (asks job (looks at (vec_len buffer))) (world_of desk.now.engine.jobs (M.mem memory.now)) ≡ record { world = world_of desk.now.engine.jobs (M.mem memory.now); answer = says result } }
{
    desk.look(memory, job, at, &mut buffer)?;
    Ok(Answer::Saw(buffer))
}

fn state(desk: &Desk, job: u8) -> Result<Answer, Denial>
    ensures { (m : Mem) → does (asks job states) (world_of desk.now.engine.jobs m) ≡ record { world = world_of desk.now.engine.jobs m; answer = says result } }
{
    Ok(Answer::Told(desk.state_of(job)?))
}

// Makes the call, and answers as the model says.
pub fn answer_call<M: Memory>(desk: &mut Desk, memory: &mut M, call: Call) -> Result<Answer, Denial>
    ensures { Answered call (world_of desk.old.engine.jobs (M.mem memory.old)) (world_of desk.new.engine.jobs (M.mem memory.new)) result }
{
    match call {
        Call::Open { job, start, table } => {
            desk.open(memory, job, table, start)?;
            Ok(Answer::Done)
        }
        Call::Load { job, at, bytes } => {
            desk.load(memory, job, at, bytes.as_slice())?;
            Ok(Answer::Done)
        }
        Call::Run { job, limit } => run(desk, memory, job, limit),
        Call::Reply {
            job,
            number,
            registers,
        } => {
            desk.reply(job, number, registers)?;
            Ok(Answer::Done)
        }
        Call::Abandon { job, number } => {
            desk.abandon(job, number)?;
            Ok(Answer::Done)
        }
        Call::Look { job, at, buffer } => look(desk, memory, job, at, buffer),
        Call::State { job } => state(desk, job),
        Call::Close { job } => {
            desk.close(job)?;
            Ok(Answer::Done)
        }
    }
}
