// The calls of a desk: those of its engine, with the receipts kept here. A host names a receipt by its job and number.
// Each says again what its engine's says, of the buffer too, and is given the same memory and job, so that a host needs no other page and
// cannot come at the engine past the desk.
ghost use Rattle.std.specs.Prelude.{◌≡◌, ℕ, ◌<◌, length, if◌then◌else◌, None, OnErr, nat_eq, slice_index_or};
ghost use Rattle.memory.specs.Memories.{Mem};
ghost use Rattle.model.specs.Calls.{opens, asks, loads, runs as asks_run, replies, abandons, looks, states, closes};
ghost use Rattle.model.specs.Acts.{judge_receipt};
ghost use Rattle.model.specs.Worlds.{jobs_of, world_of, new_world, does};
ghost use Rattle.engine.specs.Answers.{done_answer, look_answer, told_answer, state_answer};
ghost use Rattle.protection.specs.Protection.{Protected};
ghost use Rattle.desk.specs.Held.{number_in};
ghost use Rattle.desk.specs.Owing.{owed_as, owed_at, desk_answer, released};
ghost use Rattle.desk.specs.Answers.{held_answer};

use crate::desk::{Desk, NotHeld};
use crate::held::{Held, gone};
use engine::jobs::Engine;
use engine::receipt::Outcome;
use memory::Memory;
use model::job::{Registers, State};
use refusal::Refusal;
use runs::Ran;

impl Desk {
    // A new engine, with nothing owed. The jobs that are opened in it are protected from one another.
    pub fn new() -> Desk
        ensures world { (m : Mem) → world_of result.engine.jobs m ≡ new_world m }
        ensures protected { Protected }
    {
        Desk {
            engine: Engine::new(),
            held: Held::none(),
        }
    }

    // As the engine's: refused with 4, 5, 7, 8, 9 and 10.
    pub fn open<M: Memory>(
        &mut self,
        memory: &mut M,
        job: u8,
        table: [u8; 15],
        start: u16,
    ) -> Result<(), Refusal>
        ensures { does (opens job table start) (world_of self.old.engine.jobs (M.mem memory.old)) ≡ record { world = world_of self.new.engine.jobs (M.mem memory.new); answer = done_answer result } }
    {
        self.engine.open(memory, job, table, start)
    }

    // As the engine's: refused with 4, 6, 15, 16 and 17.
    pub fn load<M: Memory>(
        &self,
        memory: &mut M,
        job: u8,
        at: u16,
        bytes: &[u8],
    ) -> Result<(), Refusal>
        ensures { does (asks job (loads at bytes.now)) (world_of self.now.engine.jobs (M.mem memory.old)) ≡ record { world = world_of self.now.engine.jobs (M.mem memory.new); answer = done_answer result } }
    {
        self.engine.load(memory, job, at, bytes)
    }

    // As the engine's, with the receipt kept: refused with 4, 6, 11, 12 and 13.
    pub fn run<M: Memory>(&mut self, memory: &mut M, job: u8, limit: u16) -> Result<Ran, Refusal>
        ensures { does (asks job (asks_run limit)) (world_of self.old.engine.jobs (M.mem memory.old)) ≡ record { world = world_of self.new.engine.jobs (M.mem memory.new); answer = desk_answer result (owed_at self.new.held.receipts job) } }
    {
        let Outcome { run, receipt } = self.engine.run(memory, job, limit)?;
        gone(self.held.replace(job, receipt));
        Ok(run)
    }

    // The number of the system call that the job waits for.
    pub fn owed(&self, job: u8) -> Option<u32>
        ensures number { result ≡ number_in (slice_index_or self.now.held.receipts job None) }
        ensures whole { owed_as job result ≡ owed_at self.now.held.receipts job }
    {
        self.held.number(job)
    }

    // As the engine's: refused with 4 and 6.
    pub fn state_of(&self, job: u8) -> Result<State, Refusal>
        ensures { (m : Mem) → does (asks job states) (world_of self.now.engine.jobs m) ≡ record { world = world_of self.now.engine.jobs m; answer = told_answer result } }
    {
        let mut state = State::blank();
        self.state(job, &mut state)?;
        Ok(state)
    }

    // As the engine's: refused with 4 and 6, with the buffer as it was.
    pub fn state(&self, job: u8, out: &mut State) -> Result<(), Refusal>
        ensures world { (m : Mem) → does (asks job states) (world_of self.now.engine.jobs m) ≡ record { world = world_of self.now.engine.jobs m; answer = state_answer result out.new } }
        ensures untouched { OnErr result (out.new ≡ out.old) }
    {
        self.engine.state(job, out)
    }

    // As the engine's: refused with 4, 6, 15 and 16, with the buffer as it was.
    pub fn look<M: Memory>(
        &self,
        memory: &M,
        job: u8,
        at: u16,
        out: &mut [u8],
    ) -> Result<(), Refusal>
        ensures world { does (asks job (looks at (length out.old))) (world_of self.now.engine.jobs (M.mem memory.now)) ≡ record { world = world_of self.now.engine.jobs (M.mem memory.now); answer = look_answer result out.new } }
        ensures untouched { OnErr result (out.new ≡ out.old) }
    {
        self.engine.look(memory, job, at, out)
    }

    // As the engine's: refused with 4, 6 and 11.
    pub fn close(&mut self, job: u8) -> Result<(), Refusal>
        ensures { (m : Mem) → does (asks job closes) (world_of self.old.engine.jobs m) ≡ record { world = world_of self.new.engine.jobs m; answer = done_answer result } }
    {
        self.engine.close(job)
    }

    // Replies to the system call with this number, which is accepted. Without its receipt, where the engine would refuse the reply, nothing changes.
    // `abandon` is the same by another call of the engine: one function for both would take that call and its meaning, for three lines.
    pub fn reply(&mut self, job: u8, number: u32, registers: Registers) -> Result<(), NotHeld>
        ensures world { (m : Mem) → world_of self.new.engine.jobs m ≡ (does (asks job (replies number registers)) (world_of self.old.engine.jobs m)).world }
        ensures answer { result ≡ held_answer (judge_receipt job number (jobs_of self.old.engine.jobs job)) }
    {
        let receipt = self.held.take(job, number).ok_or(NotHeld)?;
        self.engine.reply(receipt, registers).unwrap();
        Ok(())
    }

    // Abandons the system call with this number, which is accepted. Without its receipt, where the engine would refuse it, nothing changes.
    pub fn abandon(&mut self, job: u8, number: u32) -> Result<(), NotHeld>
        ensures world { (m : Mem) → world_of self.new.engine.jobs m ≡ (does (asks job (abandons number)) (world_of self.old.engine.jobs m)).world }
        ensures answer { result ≡ held_answer (judge_receipt job number (jobs_of self.old.engine.jobs job)) }
    {
        let receipt = self.held.take(job, number).ok_or(NotHeld)?;
        self.engine.abandon(receipt).unwrap();
        Ok(())
    }

    // Abandons what a job is owed.
    fn release(&mut self, job: u8)
        ensures { (k : ℕ) → jobs_of self.new.engine.jobs k ≡ (if nat_eq k job then released (jobs_of self.old.engine.jobs k) else jobs_of self.old.engine.jobs k) }
    {
        if let Some(number) = self.owed(job) {
            self.abandon(job, number).unwrap();
        }
    }

    // Abandons whatever is owed, which is accepted, and gives back the engine: no job of it waits. Each host makes, uses and finishes its desk
    // itself: a function that is given that use as a closure would require that it may be called, and no public function requires anything.
    pub fn finish(mut self) -> Engine
        ensures { (k : ℕ) → jobs_of result.jobs k ≡ released (jobs_of self.engine.jobs k) }
    {
        for job in 0..8u8 {
            self.release(job);
        }
        let Desk { engine, held } = self;
        held.let_go();
        engine
    }
}
