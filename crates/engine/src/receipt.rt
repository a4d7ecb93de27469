// What a run answers, and the receipt for a system call.
ghost use Rattle.std.specs.Prelude.{◌≡◌};

use model::job::Job;
use refusal::Refusal;
use runs::Ran;

// What is owed for a system call. It cannot be dropped: it ends in an accepted reply or abandoning, and a refused one hands it back.
#[derive(PartialEq, Eq)]
pub struct Receipt {
    pub(crate) job: u8,
    pub(crate) number: u32,
}

impl Receipt {
    // The job that waits.
    pub fn job(&self) -> u8
        ensures { result ≡ self.now.job }
    {
        self.job
    }

    // The number of the system call among those of its job, from 1.
    pub fn number(&self) -> u32
        ensures { result ≡ self.now.number }
    {
        self.number
    }
}

// An accepted run: with a receipt exactly if it stopped at a system call.
pub struct Outcome {
    pub run: Ran,
    pub receipt: Option<Receipt>,
}

// A refused call that was given a receipt hands it back.
pub struct Returned {
    pub refusal: Refusal,
    pub receipt: Receipt,
}

// A receipt that was taken: its job, and the record of that.
#[derive(Clone, Copy)]
pub(crate) struct Redeemed {
    pub(crate) job: u8,
    pub(crate) record: Job,
}
