// The state of the processor.
ghost use Rattle.std.specs.Prelude.{◌≡◌, Some};
ghost use Rattle.registers.specs.Processors.{bank_of, reset_at};
ghost use Rattle.std.specs.Borrow.{sem};
ghost use Rattle.registers.specs.Words.{word_of};
ghost use Rattle.registers.specs.Lending.{LendsBank};

use super::bank::Bank;
use super::stack::Stack;
use std::fmt;

// Which bank is in use.
#[derive(Clone, Copy, PartialEq, Eq)]
pub enum Mode {
    Alpha,
    Beta,
}

impl fmt::Display for Mode {
    ghost output = { λ m. Some (word_of m) };

    fn fmt<W: fmt::Write>(&self, f: &mut fmt::Formatter<W>) -> fmt::Result {
        f.write_str(match self {
            Mode::Alpha => "alpha",
            Mode::Beta => "beta",
        })
    }
}

#[derive(Clone, Copy)]
pub struct Processor {
    pub alpha: Bank,
    pub beta: Bank,
    pub mode: Mode,
    pub p: u16,
    pub interrupts: bool,
    pub stack: Stack,
}

impl Processor {
    // All zero and in Alpha mode, with P at the start.
    pub fn reset(start: u16) -> Processor
        ensures { result ≡ reset_at start }
    {
        let bank = Bank::default();
        Processor {
            alpha: bank,
            beta: bank,
            mode: Mode::Alpha,
            p: start,
            interrupts: false,
            stack: Stack::empty(),
        }
    }

    // The bank in use.
    pub fn bank(&self) -> Bank
        ensures { result ≡ bank_of self.now }
    {
        match self.mode {
            Mode::Alpha => self.alpha,
            Mode::Beta => self.beta,
        }
    }

    // The bank in use, to be changed.
    pub fn bank_mut(&mut self) -> &mut Bank
        ensures* lends { sem 𝓛 (LendsBank self.entry result) }
        ensures value { result.now ≡ bank_of self.old }
    {
        match self.mode {
            Mode::Alpha => &mut self.alpha,
            Mode::Beta => &mut self.beta,
        }
    }
}
