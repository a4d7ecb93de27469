// A shipper at a host.
use crate::host::Host;
use crate::listings::SHIPMENTS;
use crate::problem::Problem;
use crate::shippers::Shipper;
use office::account::Account;
use office::bill::Bill;
use office::question::Question;
use refusal::Refusal;
use std::alloc::Global;
use stop::{Stop, Trap};

// The shipper's account, how often its job was run, and whether its program is over.
#[derive(Drop)]
pub struct Seat {
    shipper: Shipper,
    account: Account,
    runs: u32,
    over: bool,
}

impl Seat {
    // Opens the shipper's job and loads its program.
    pub fn take(host: &mut Host, heap: Global, shipper: Shipper) -> Result<Seat, Refusal> {
        host.open(shipper.job, shipper.table)?;
        host.load(shipper.job, shipper.code)?;
        Ok(Seat {
            shipper,
            account: Account::new(heap),
            runs: 0,
            over: false,
        })
    }

    pub fn is_over(&self) -> bool {
        self.over
    }

    // Runs the program for at most so many steps, and answers it if it asks. Nothing once it is over.
    pub fn turn(&mut self, host: &mut Host, limit: u16) -> Result<(), Problem> {
        if self.over {
            return Ok(());
        }
        let ran = host.run(self.shipper.job, limit)?;
        self.runs = self.runs.saturating_add(1);
        match ran.stop {
            Stop::Limit => Ok(()),
            Stop::Trapped(Trap::SystemCall) => self.serve(host),
            Stop::Trapped(Trap::Halt) => {
                self.over = true;
                Ok(())
            }
            other => Err(Problem::Stopped(other)),
        }
    }

    // Answers the system call that the program waits for.
    fn serve(&mut self, host: &mut Host) -> Result<(), Problem> {
        let job = self.shipper.job;
        let state = host.state(job)?;
        let question = Question::from(&state.processor.bank());
        let reply = self.account.answer(question, &SHIPMENTS)?;
        host.reply(job, reply)
    }

    // What it comes to: its charges, with the steps and the time of its job.
    pub fn bill(self, host: &Host) -> Result<Bill, Refusal> {
        let state = host.state(self.shipper.job)?;
        Ok(Bill {
            charges: self.account.charges,
            steps: state.steps,
            time: state.time,
            runs: self.runs,
        })
    }
}
