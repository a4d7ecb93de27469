// Calls on a job that waits, and its receipt: shown to another engine, and abandoned.
ghost use Rattle.std.specs.Prelude.{◌≡◌, Some};
ghost use Rattle.model.specs.declared.job.Status.TheVariants.{Waiting};
ghost use Rattle.model.specs.Worlds.{jobs_of};
ghost use Rattle.engine.specs.Answers.{owed_of};
ghost use Rattle.engine.specs.Receipts.{Acceptable};

use engine::jobs::Engine;
use engine::receipt::{Outcome, Receipt, Returned};
use memory::Memory;
use refusal::Refusal;

// A run of job 0 while it waits.
fn run_waiting<M: Memory>(engine: &mut Engine, memory: &mut M) -> Refusal
    requires { (jobs_of engine.old.jobs 0).status ≡ Waiting }
    ensures { jobs_of engine.new.jobs ≡ jobs_of engine.old.jobs }
{
    engine.run(memory, 0, 9).unwrap_err()
}

// A closing of job 0 while it waits.
fn close_waiting(engine: &mut Engine) -> Result<(), Refusal>
    requires { (jobs_of engine.old.jobs 0).status ≡ Waiting }
    ensures { jobs_of engine.new.jobs ≡ jobs_of engine.old.jobs }
{
    engine.close(0)
}

// Abandons what is owed, which is accepted. Each crate that ends a receipt so has these lines: this requires that the engine accepts it, which
// neither of them holds by its type, and no public function of a library requires anything.
fn abandon_owed(engine: &mut Engine, owed: Receipt)
    requires { Acceptable (owed_of (Some owed)) (jobs_of engine.old.jobs) }
{
    engine.abandon(owed).unwrap();
}

// What came of a receipt: the number on it, how a run and a closing were refused while it was owed, and what another engine said of it.
#[derive(Clone, Copy)]
pub struct Shown {
    pub number: u32,
    pub waiting: Refusal,
    pub closing: Result<(), Refusal>,
    pub elsewhere: Result<(), Refusal>,
}

// Runs job 0 up to a system call, runs it once more, tries to close it, shows the receipt to another engine, and abandons it at its own. None without a system call.
pub fn show_elsewhere<M: Memory>(
    engine: &mut Engine,
    other: &mut Engine,
    memory: &mut M,
) -> Result<Option<Shown>, Refusal> {
    let Outcome { run: _, receipt } = engine.run(memory, 0, 9)?;
    let Some(owed) = receipt else {
        return Ok(None);
    };
    let number = owed.number();
    let waiting = run_waiting(engine, memory);
    let closing = close_waiting(engine);
    let elsewhere = other.abandon(owed).map_err(|Returned { refusal, receipt }| {
        abandon_owed(engine, receipt);
        refusal
    });
    Ok(Some(Shown {
        number,
        waiting,
        closing,
        elsewhere,
    }))
}
