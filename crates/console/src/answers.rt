// What a command is answered, and the line that is printed for it.
ghost use Rattle.std.specs.Prelude.{◌≡◌, Some};
ghost use Rattle.console.specs.declared.answers.Denial.TheVariants.{Refused, Error};
ghost use Rattle.console.specs.Lines.{run_line, block_line};
ghost use Rattle.script.specs.declared.faults.Fault.TheVariants.{NoSuchReceipt};

use desk::desk::NotHeld;
use model::job::State;
use refusal::Refusal;
use registers::bank::{Bank, Flags};
use runs::Ran;
use script::faults::Fault;
use std::fmt;
use thiserror::Error;

// A block of an image, without its bytes.
#[derive(Clone, Copy)]
pub struct Placed {
    pub offset: usize,
    pub at: u16,
    pub length: usize,
}

// A run, with the number of the system call that its job then waits for.
#[derive(Clone, Copy)]
pub struct Finished {
    pub job: u8,
    pub run: Ran,
    pub owed: Option<u32>,
}

// An image that was read.
#[derive(Drop)]
pub struct Read {
    pub table: [u8; 15],
    pub start: u16,
    pub blocks: Vec<Placed>,
}

// What a command that was done is answered.
#[derive(Drop)]
pub enum Answer {
    Done,
    Ran(Finished),
    Saw(Vec<u8>),
    Told(State),
    Number(u64),
    Image(Read),
}

// Why a command was not done: it was refused, or its line is no call.
#[derive(Clone, Copy, PartialEq, Eq, Debug, Error)]
pub enum Denial {
    #[error("{0}")]
    Refused(Refusal),
    #[error("error {0}")]
    Error(Fault),
}

// `From` is written out: a derived one has no contract, and the clauses of the calls say which error a `?` makes.
impl From<Refusal> for Denial {
    ghost from_gives = { λ e d. d ≡ Refused e };

    fn from(refusal: Refusal) -> Denial {
        Denial::Refused(refusal)
    }
}

impl From<Fault> for Denial {
    ghost from_gives = { λ e d. d ≡ Error e };

    fn from(fault: Fault) -> Denial {
        Denial::Error(fault)
    }
}

// A receipt that the desk does not hold is an error of the script.
impl From<NotHeld> for Denial {
    ghost from_gives = { λ _ d. d ≡ Error NoSuchReceipt };

    fn from(_: NotHeld) -> Denial {
        Denial::Error(Fault::NoSuchReceipt)
    }
}

// Items, each behind a space.
#[derive(Clone, Copy)]
struct Spaced<'a, T>(&'a [T]);

impl<T: fmt::Display> fmt::Display for Spaced<'_, T> {
    fn fmt<W: fmt::Write>(&self, f: &mut fmt::Formatter<W>) -> fmt::Result {
        for item in self.0 {
            write!(f, " {item}")?;
        }
        Ok(())
    }
}

// A bank and a state by functions and no `Display`, which would be no plainer: both types are of other crates, and would be wrapped to be
// printed.
fn write_bank<W: fmt::Write>(bank: &Bank, f: &mut fmt::Formatter<W>) -> fmt::Result {
    let Bank {
        a,
        b,
        c,
        d,
        e,
        h,
        l,
        x,
        flags,
    } = *bank;
    let Flags {
        carry,
        zero,
        sign,
        parity,
    } = flags;
    let bits = [carry, zero, sign, parity].map(u8::from);
    let flags = Spaced(&bits);
    write!(f, " {a} {b} {c} {d} {e} {h} {l} {x}{flags}")
}

fn write_state<W: fmt::Write>(state: &State, f: &mut fmt::Formatter<W>) -> fmt::Result {
    let status = state.status;
    let mode = state.processor.mode;
    let p = state.processor.p;
    let interrupts = u8::from(state.processor.interrupts);
    write!(f, " {status} {mode} p {p} int {interrupts} alpha")?;
    write_bank(&state.processor.alpha, f)?;
    write!(f, " beta")?;
    write_bank(&state.processor.beta, f)?;
    let top = state.processor.stack.top;
    let entries = Spaced(&state.processor.stack.entries);
    let State {
        steps,
        time,
        calls,
        ..
    } = state;
    write!(f, " top {top} stack{entries}")?;
    write!(f, " steps {steps} time {time} calls {calls}")
}

// As `stop 3 steps 12 time 20000 receipt 0 1`.
impl fmt::Display for Finished {
    ghost output = { λ finished. Some (run_line finished) };

    fn fmt<W: fmt::Write>(&self, f: &mut fmt::Formatter<W>) -> fmt::Result {
        let Finished { job, run, owed } = self;
        let stop = run.stop.number();
        write!(f, "stop {stop} steps {} time {}", run.steps, run.time)?;
        match owed {
            Some(number) => write!(f, " receipt {job} {number}"),
            None => Ok(()),
        }
    }
}

// As `22 0 5`.
impl fmt::Display for Placed {
    ghost output = { λ placed. Some (block_line placed) };

    fn fmt<W: fmt::Write>(&self, f: &mut fmt::Formatter<W>) -> fmt::Result {
        let Placed { offset, at, length } = self;
        write!(f, "{offset} {at} {length}")
    }
}

// `ok`, and behind it what the command gives.
impl fmt::Display for Answer {
    fn fmt<W: fmt::Write>(&self, f: &mut fmt::Formatter<W>) -> fmt::Result {
        write!(f, "ok")?;
        match self {
            Answer::Done => Ok(()),
            Answer::Ran(finished) => write!(f, " {finished}"),
            Answer::Saw(bytes) => write!(f, "{}", Spaced(bytes.as_slice())),
            Answer::Told(state) => write_state(state, f),
            Answer::Number(number) => write!(f, " {number}"),
            Answer::Image(image) => {
                let table = Spaced(&image.table);
                let blocks = Spaced(image.blocks.as_slice());
                write!(f, " table{table} start {} blocks{blocks}", image.start)
            }
        }
    }
}
