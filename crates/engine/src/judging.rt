// The grounds of the calls, judged in their order.
ghost use Rattle.std.specs.Prelude.{◌≡◌, ℕ, ◌<◌, Bool, not, ◌&&◌, ◌==◌};
ghost use Rattle.pages.specs.Held.{holds};
ghost use Rattle.refusal.specs.Judging.{first_from};
ghost use Rattle.model.specs.Acts.{no_such_job, judge_open_job, judge_run, judge_receipt, judge_close};
ghost use Rattle.model.specs.Worlds.{jobs_of, world_of, held_by, held_at, judge_open};
ghost use Rattle.engine.specs.Judges.{record_or};

use crate::jobs::Engine;
use crate::receipt::Receipt;
use memory::Memory;
use memory::page::Page;
use model::job::Job;
use pages::entries::{first_fixed, first_named_again, first_reserved, names_page};
use refusal::{Ground, Refusal};
use table::entry::entry_of;

impl Engine {
    // The record of a job: refused with 4.
    fn record(&self, job: u8) -> Result<Job, Refusal>
        ensures { result ≡ record_or (λ _. no_such_job job) (jobs_of self.now.jobs job) }
    {
        self.jobs
            .get(job as usize)
            .copied()
            .ok_or(Ground::NoSuchJob.at(0))
    }

    // The record of a job that is open: refused with 4 and 6.
    pub(crate) fn open_record(&self, job: u8) -> Result<Job, Refusal>
        ensures { result ≡ record_or (judge_open_job job) (jobs_of self.now.jobs job) }
    {
        let record = self.record(job)?;
        Ground::NotOpen.refuse_if(!record.status.is_open())?;
        Ok(record)
    }

    // The record of a job that may run: refused with 4, 6, 11, 12 and 13.
    pub(crate) fn ready_record(&self, job: u8, limit: u16) -> Result<Job, Refusal>
        ensures { result ≡ record_or (judge_run job limit) (jobs_of self.now.jobs job) }
    {
        let record = self.idle_record(job)?;
        Ground::JobEnded.refuse_if(record.status.is_ended())?;
        Ground::TooManySteps.refuse_if(record.steps > u32::MAX - limit as u32)?;
        Ok(record)
    }

    // The record of a job that is not waiting: refused with 4, 6 and 11.
    pub(crate) fn idle_record(&self, job: u8) -> Result<Job, Refusal>
        ensures { result ≡ record_or (judge_close job) (jobs_of self.now.jobs job) }
    {
        let record = self.open_record(job)?;
        Ground::JobWaiting.refuse_if(record.status.is_waiting())?;
        Ok(record)
    }

    // The record of a job that waits for this receipt: refused with 4, 6 and 14.
    pub(crate) fn owing_record(&self, receipt: &Receipt) -> Result<Job, Refusal>
        ensures { result ≡ record_or (judge_receipt receipt.now.job receipt.now.number) (jobs_of self.now.jobs receipt.now.job) }
    {
        let record = self.open_record(receipt.job)?;
        Ground::NotOwed.refuse_if(!(record.status.is_waiting() && record.calls == receipt.number))?;
        Ok(record)
    }

    // Whether the job `k` is another than `job` and holds the page. That `k` is below eight is the caller's range; tried: what this says, as
    // that range's closure, gets no proof where the closure indexes the records.
    fn other_holds(&self, k: u8, job: u8, page: Page) -> bool
        requires { k < 8 }
        ensures { result ≡ (not (k == job) && holds (jobs_of self.now.jobs k).table page.number) }
    {
        let record = &self.jobs[k as usize];
        k != job && names_page(&record.table, 15, page)
    }

    // Whether another job than `job` holds the page: looks at all eight.
    fn held_by_other(&self, job: u8, page: Page) -> bool
        ensures { result ≡ held_by 8 (jobs_of self.now.jobs) job page.number }
    {
        (0..8).any(|k| self.other_holds(k, job, page))
    }

    // The first sector whose entry names a page which takes writes and which another open job holds.
    fn first_held<M: Memory>(&self, memory: &M, job: u8, table: &[u8; 15]) -> Option<u32>
        ensures { result ≡ first_from 15 0 (held_at (jobs_of self.now.jobs) (M.mem memory.now).takes job table.now) }
    {
        (0..15).find(|s| {
            let entry = entry_of(table, *s);
            entry.access()
                && memory.takes_writes(entry.page())
                && self.held_by_other(job, entry.page())
        })
    }

    // Whether the job may be opened with the table: refused with 4, 5, 7, 8, 9 and 10.
    pub(crate) fn judge_open<M: Memory>(
        &self,
        memory: &M,
        job: u8,
        table: &[u8; 15],
    ) -> Result<(), Refusal>
        ensures { result ≡ judge_open job table.now (world_of self.now.jobs (M.mem memory.now)) }
    {
        let record = self.record(job)?;
        Ground::AlreadyOpen.refuse_if(record.status.is_open())?;
        Ground::ReservedBits.refuse_at(first_reserved(table))?;
        Ground::PageNamedTwice.refuse_at(first_named_again(table))?;
        Ground::PageNotWritable.refuse_at(first_fixed(table, memory))?;
        Ground::PageHeld.refuse_at(self.first_held(memory, job, table))
    }
}
