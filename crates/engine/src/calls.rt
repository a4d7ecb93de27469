// The calls. Each does what the model's definition of it says, and a refused one changes nothing. That a refused one leaves the buffer which
// it is lent, or hands back the receipt which it is given, is said of what the caller passed, so each of them says it.
ghost use Rattle.std.specs.Prelude.{◌≡◌, ℕ, ◌+◌, ◌*◌, ◌<◌, ◌≤◌, Bool, false, length, replicate, IfOk, IfErr, OnErr};
ghost use Rattle.memory.specs.Memories.{Mem};
ghost use Rattle.runs.specs.Runs.{calls_in};
ghost use Rattle.model.specs.Jobs.{closed_job, ran_job};
ghost use Rattle.model.specs.Calls.{opens, asks, loads, runs as asks_run, replies, abandons, looks, states, closes};
ghost use Rattle.model.specs.Acts.{judge_receipt, owed_by};
ghost use Rattle.model.specs.Worlds.{jobs_of, world_of, new_world, upd, twice, does};
ghost use Rattle.engine.specs.Answers.{done_answer, owed_of, ran_answer, returned_answer, look_answer, told_answer, state_answer};
ghost use Rattle.engine.specs.Judges.{record_or, record_in};
ghost use Rattle.protection.specs.Protection.{Protected};

use crate::jobs::Engine;
use crate::receipt::{Outcome, Receipt, Redeemed, Returned};
use memory::Memory;
use model::job::{Job, Registers, State};
use model::records::{calls_in, status_after};
use model::running::run_job;
use pages::clearing::clear_pages;
use pages::{loading, looking};
use refusal::Refusal;
use runs::Ran;
use stop::{Stop, Trap};
use table::sectors::Table;

// Adds a run to the record.
fn count(seat: &mut Job, run: Ran)
    requires steps { seat.old.steps + run.steps ≤ 4294967295 }
    requires timed { seat.old.time ≤ seat.old.steps * 4294967295 }
    requires bounded { run.time ≤ run.steps * 4294967295 }
    requires called { seat.old.calls ≤ seat.old.steps }
    requires calling { calls_in run.stop ≤ run.steps }
    ensures { seat.new ≡ ran_job seat.old run seat.old.processor }
{
    seat.steps += run.steps as u32;
    seat.time += run.time;
    seat.calls += calls_in(run.stop);
    seat.status = status_after(run.stop);
}

// The receipt for a system call, with its number.
fn receipt_for(stop: Stop, job: u8, number: u32) -> Option<Receipt>
    ensures { owed_of result ≡ owed_by stop job number }
{
    match stop {
        Stop::Trapped(Trap::SystemCall) => Some(Receipt { job, number }),
        Stop::Limit | Stop::Trapped(_) | Stop::Faulted(_) => None,
    }
}

fn closed_jobs() -> [Job; 8]
    ensures { result ≡ replicate 8 closed_job }
{
    [Job::closed(); 8]
}

impl Engine {
    // Eight closed jobs. The jobs that are opened in it are protected from one another.
    pub fn new() -> Engine
        ensures world { (m : Mem) → world_of result.jobs m ≡ new_world m }
        ensures protected { Protected }
    {
        Engine {
            jobs: closed_jobs(),
        }
    }

    // Puts another record in a job's place; the other seven stay. The number stays a number: a type for those below eight would be
    // made and unmade in every call, each of which takes any number and refuses the others.
    fn set_record(&mut self, job: u8, new: Job)
        requires low { job < 8 }
        requires once { twice new.table ≡ false }
        requires timed { new.time ≤ new.steps * 4294967295 }
        requires called { new.calls ≤ new.steps }
        ensures { jobs_of self.new.jobs ≡ upd (jobs_of self.old.jobs) job new }
    {
        self.jobs[job as usize] = new;
    }

    // Leaves the number vacant; the pages are free for others.
    fn vacate(&mut self, job: u8)
        requires { job < 8 }
        ensures { jobs_of self.new.jobs ≡ upd (jobs_of self.old.jobs) job closed_job }
    {
        self.set_record(job, Job::closed());
    }

    // The table of a job's record, which names no page twice.
    fn table_of(&self, job: u8, seat: &Job) -> Table
        requires { seat.now ≡ jobs_of self.now.jobs job }
        ensures { result.entries ≡ seat.now.table }
    {
        Table {
            entries: seat.table,
        }
    }

    // Gives a job its table and starting address, and clears its pages: refused with 4, 5, 7, 8, 9 and 10.
    pub fn open<M: Memory>(
        &mut self,
        memory: &mut M,
        job: u8,
        table: [u8; 15],
        start: u16,
    ) -> Result<(), Refusal>
        ensures { does (opens job table start) (world_of self.old.jobs (M.mem memory.old)) ≡ record { world = world_of self.new.jobs (M.mem memory.new); answer = done_answer result } }
    {
        self.judge_open(memory, job, &table)?;
        clear_pages(&table, memory);
        self.set_record(job, Job::opened(table, start));
        Ok(())
    }

    // Puts bytes from an address of the job on: refused with 4, 6, 15, 16 and 17.
    pub fn load<M: Memory>(
        &self,
        memory: &mut M,
        job: u8,
        at: u16,
        bytes: &[u8],
    ) -> Result<(), Refusal>
        ensures { does (asks job (loads at bytes.now)) (world_of self.now.jobs (M.mem memory.old)) ≡ record { world = world_of self.now.jobs (M.mem memory.new); answer = done_answer result } }
    {
        let record = self.open_record(job)?;
        loading::load(self.table_of(job, &record), memory, at, bytes)
    }

    // Runs the job for at most `limit` steps: refused with 4, 6, 11, 12 and 13.
    pub fn run<M: Memory>(
        &mut self,
        memory: &mut M,
        job: u8,
        limit: u16,
    ) -> Result<Outcome, Refusal>
        ensures { does (asks job (asks_run limit)) (world_of self.old.jobs (M.mem memory.old)) ≡ record { world = world_of self.new.jobs (M.mem memory.new); answer = ran_answer result } }
    {
        let mut record = self.ready_record(job, limit)?;
        let table = self.table_of(job, &record);
        let run = run_job(memory, table, &mut record.processor, limit);
        count(&mut record, run);
        self.set_record(job, record);
        Ok(Outcome {
            run,
            receipt: receipt_for(run.stop, job, record.calls),
        })
    }

    // What a receipt is for: refused with 4, 6 and 14, with the receipt handed back.
    fn redeem(&self, receipt: Receipt) -> Result<Redeemed, Returned>
        ensures judged { record_in result ≡ record_or (judge_receipt receipt.job receipt.number) (jobs_of self.now.jobs receipt.job) }
        ensures taken { IfOk result (λ r. r.job ≡ receipt.job) }
        ensures handed { IfErr result (λ e. e.receipt ≡ receipt) }
    {
        // a match and no `map_err`: either arm takes the receipt
        match self.owing_record(&receipt) {
            Err(refusal) => Err(Returned { refusal, receipt }),
            Ok(record) => {
                let Receipt { job, number: _ } = receipt;
                Ok(Redeemed { job, record })
            }
        }
    }

    // Sets the eight registers of the bank in use of a job that waits for this receipt, and makes it ready:
    // refused with 4, 6 and 14, with the receipt handed back.
    pub fn reply(&mut self, receipt: Receipt, registers: Registers) -> Result<(), Returned>
        ensures world { (m : Mem) → does (asks receipt.job (replies receipt.number registers)) (world_of self.old.jobs m) ≡ record { world = world_of self.new.jobs m; answer = returned_answer result } }
        ensures handed { IfErr result (λ e. e.receipt ≡ receipt) }
    {
        let Redeemed { job, record } = self.redeem(receipt)?;
        self.set_record(job, record.replied(registers));
        Ok(())
    }

    // Closes a job that waits for this receipt: refused with 4, 6 and 14, with the receipt handed back.
    pub fn abandon(&mut self, receipt: Receipt) -> Result<(), Returned>
        ensures world { (m : Mem) → does (asks receipt.job (abandons receipt.number)) (world_of self.old.jobs m) ≡ record { world = world_of self.new.jobs m; answer = returned_answer result } }
        ensures handed { IfErr result (λ e. e.receipt ≡ receipt) }
    {
        let Redeemed { job, .. } = self.redeem(receipt)?;
        self.vacate(job);
        Ok(())
    }

    // The job's state, which `state` puts into a buffer: refused with 4 and 6.
    pub fn state_of(&self, job: u8) -> Result<State, Refusal>
        ensures { (m : Mem) → does (asks job states) (world_of self.now.jobs m) ≡ record { world = world_of self.now.jobs m; answer = told_answer result } }
    {
        let mut state = State::blank();
        self.state(job, &mut state)?;
        Ok(state)
    }

    // Fills the buffer with the job's state: refused with 4 and 6, with the buffer as it was.
    pub fn state(&self, job: u8, out: &mut State) -> Result<(), Refusal>
        ensures world { (m : Mem) → does (asks job states) (world_of self.now.jobs m) ≡ record { world = world_of self.now.jobs m; answer = state_answer result out.new } }
        ensures untouched { OnErr result (out.new ≡ out.old) }
    {
        let record = self.open_record(job)?;
        *out = record.state();
        Ok(())
    }

    // Fills the whole buffer with the job's bytes from an address on: refused with 4, 6, 15 and 16, with the buffer as it was.
    pub fn look<M: Memory>(
        &self,
        memory: &M,
        job: u8,
        at: u16,
        out: &mut [u8],
    ) -> Result<(), Refusal>
        ensures world { does (asks job (looks at (length out.old))) (world_of self.now.jobs (M.mem memory.now)) ≡ record { world = world_of self.now.jobs (M.mem memory.now); answer = look_answer result out.new } }
        ensures untouched { OnErr result (out.new ≡ out.old) }
    {
        let record = self.open_record(job)?;
        looking::look(&record.table, memory, at, out)
    }

    // Closes a job that is not waiting; its pages keep their bytes: refused with 4, 6 and 11.
    pub fn close(&mut self, job: u8) -> Result<(), Refusal>
        ensures { (m : Mem) → does (asks job closes) (world_of self.old.jobs m) ≡ record { world = world_of self.new.jobs m; answer = done_answer result } }
    {
        self.idle_record(job)?;
        self.vacate(job);
        Ok(())
    }
}
