// A job's record, and what is given and told of it.
ghost use Rattle.std.specs.Prelude.{Some};
ghost use Rattle.model.specs.Words.{word_of};

use registers::processor::Processor;
use std::fmt;

#[derive(Clone, Copy, PartialEq, Eq, Debug)]
pub enum Status {
    Closed,
    Ready,
    Waiting,
    Ended,
}

impl fmt::Display for Status {
    ghost output = { λ s. Some (word_of s) };

    fn fmt<W: fmt::Write>(&self, f: &mut fmt::Formatter<W>) -> fmt::Result {
        f.write_str(match self {
            Status::Closed => "closed",
            Status::Ready => "ready",
            Status::Waiting => "waiting",
            Status::Ended => "ended",
        })
    }
}

// A job's record: its processor and table, the steps, nanoseconds and system calls since its opening, and its status.
// A job that is not open is a record too, and no `None`: what is said of all eight jobs is said of records alone.
#[derive(Clone, Copy)]
pub struct Job {
    pub processor: Processor,
    pub table: [u8; 15],
    pub steps: u32,
    pub time: u64,
    pub calls: u32,
    pub status: Status,
}

// What a job shows of itself when it is asked for its state. Its status is never `Closed`.
// A record that held this as one field would read `job.state.steps` in every definition.
#[derive(Clone, Copy)]
pub struct State {
    pub processor: Processor,
    pub steps: u32,
    pub time: u64,
    pub calls: u32,
    pub status: Status,
}

// The eight registers of a bank, as a reply gives them: without flags, which is why it is no `Bank`. A `Bank` that held them as one field
// would read `bank.registers.a` in every definition of an instruction.
#[derive(Clone, Copy, PartialEq, Eq, Debug, Default)]
pub struct Registers {
    pub a: u8,
    pub b: u8,
    pub c: u8,
    pub d: u8,
    pub e: u8,
    pub h: u8,
    pub l: u8,
    pub x: u8,
}
