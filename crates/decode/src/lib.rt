// From an op code, and the selecting byte before it, to an instruction or a fault.
#![tactic(auto)]

ghost use Rattle.std.specs.Prelude.{◌≡◌, ℕ, ◌/◌, ◌%◌};
ghost use Rattle.decode.specs.Digits.{register_of, flag_of, condition_of, operation_of, source_of, selector_of, implied_by, pair_by};
ghost use Rattle.decode.specs.Patterns.{carried, first_plain_of, first_after_of, first_of, second_of, last_of, decode_of};

pub mod instruction;
pub mod lengths;

use alu::{Operation, Shift};
use instruction::{Instruction, Selector, Source};
use registers::bank::{Condition, Flag, Pair, Register};
use stop::Fault;

// What a digit names. These are no `From<u8>`: a number by itself names no register.
fn register_at(digit: u8) -> Register
    ensures { result ≡ register_of digit }
{
    match digit {
        0 => Register::A,
        1 => Register::B,
        2 => Register::C,
        3 => Register::D,
        4 => Register::E,
        5 => Register::H,
        6 => Register::L,
        _ => Register::X,
    }
}

fn flag_at(digit: u8) -> Flag
    ensures { result ≡ flag_of digit }
{
    match digit {
        0 => Flag::Carry,
        1 => Flag::Zero,
        2 => Flag::Sign,
        _ => Flag::Parity,
    }
}

// Digits 0 to 3 ask for a clear flag, 4 to 7 for one that is set.
fn condition_at(digit: u8) -> Condition
    ensures { result ≡ condition_of digit }
{
    Condition {
        flag: flag_at(digit % 4),
        set: digit >= 4,
    }
}

fn operation_at(digit: u8) -> Operation
    ensures { result ≡ operation_of digit }
{
    match digit {
        0 => Operation::Add,
        1 => Operation::AddCarry,
        2 => Operation::Subtract,
        3 => Operation::SubtractBorrow,
        4 => Operation::And,
        5 => Operation::ExclusiveOr,
        6 => Operation::Or,
        _ => Operation::Compare,
    }
}

fn source_at(digit: u8) -> Source
    ensures { result ≡ source_of digit }
{
    match digit {
        0..=6 => Source::Register(register_at(digit)),
        _ => Source::Memory,
    }
}

// What a byte selects for the op code after it, if it is a selecting byte.
pub fn selector_at(byte: u8) -> Option<Selector>
    ensures { result ≡ selector_of byte }
{
    match byte {
        0o111 => Some(Selector::B),
        0o062 => Some(Selector::C),
        0o113 => Some(Selector::D),
        0o174 => Some(Selector::E),
        0o115 => Some(Selector::H),
        0o176 => Some(Selector::L),
        0o022 => Some(Selector::X),
        _ => None,
    }
}

// The register that an instruction implies: A without a selecting byte.
fn implied(selector: Option<Selector>) -> Register
    ensures { result ≡ implied_by selector }
{
    match selector {
        None => Register::A,
        Some(Selector::B) => Register::B,
        Some(Selector::C) => Register::C,
        Some(Selector::D) => Register::D,
        Some(Selector::E) => Register::E,
        Some(Selector::H) => Register::H,
        Some(Selector::L) => Register::L,
        Some(Selector::X) => Register::X,
    }
}

// The pair that an instruction implies: HL without a selecting byte. Only three of these select one.
fn implied_pair(selector: Option<Selector>) -> Result<Pair, Fault>
    ensures { result ≡ carried (pair_by selector) }
{
    match selector {
        None => Ok(Pair::HL),
        Some(Selector::C) => Ok(Pair::BC),
        Some(Selector::E) => Ok(Pair::DE),
        Some(Selector::X) => Ok(Pair::XA),
        Some(_) => Err(Fault::NotCarried),
    }
}

// The two lower octal digits of an op code, d and l, and what the selecting byte before it selects.
#[derive(Clone, Copy)]
struct Code {
    selector: Option<Selector>,
    d: u8,
    l: u8,
}

impl Code {
    // 0dl without a selecting byte, of those that have no form with one.
    fn decode_first_plain(self) -> Result<Instruction, Fault>
        ensures { result ≡ first_plain_of self.d self.l }
    {
        match (self.d, self.l) {
            (0, 0 | 1) => Ok(Instruction::Halt),
            (0, 7) => Ok(Instruction::Return),
            (1, 1) => Ok(Instruction::FieldAdd),
            (2, 0) => Ok(Instruction::SelectBeta),
            (2, 1) => Ok(Instruction::BlockTransfer),
            (3, 0) => Ok(Instruction::SelectAlpha),
            (3, 1) => Ok(Instruction::FieldSubtract),
            (4, 0) => Ok(Instruction::DisableInterrupts),
            (5, 0) => Ok(Instruction::EnableInterrupts),
            (5, 1) => Ok(Instruction::PushImmediate),
            (5, 2) => Ok(Instruction::Break),
            (6, 7) => Ok(Instruction::CallSystem),
            // the load of the sector table
            (7, 7) => Err(Fault::Privileged),
            (d, 3) => Ok(Instruction::ReturnIf(condition_at(d))),
            (d, 6) => Ok(Instruction::LoadImmediate(register_at(d))),
            _ => Err(Fault::NotCarried),
        }
    }

    // 0dl, of those that mean another thing after a selecting byte, or nothing.
    fn decode_first_after(self) -> Result<Instruction, Fault>
        ensures { result ≡ first_after_of self.selector self.d self.l }
    {
        match (self.selector, self.d, self.l) {
            (None, _, _) => self.decode_first_plain(),
            (Some(Selector::B), 2, 1) => Ok(Instruction::BlockTransferReverse),
            (Some(Selector::C), 2, 1) => Ok(Instruction::BlockConvert),
            (Some(_), _, _) => Err(Fault::NotCarried),
        }
    }

    // 0dl
    fn decode_first(self) -> Result<Instruction, Fault>
        ensures { result ≡ first_of self.selector self.d self.l }
    {
        let register = implied(self.selector);
        match (self.d, self.l) {
            (0, 2) => Ok(Instruction::Shift(Shift::LeftCircular, register)),
            (1, 2) => Ok(Instruction::Shift(Shift::RightCircular, register)),
            (3, 2) => Ok(Instruction::Shift(Shift::RightExtended, register)),
            (6, 0) => Ok(Instruction::Pop(implied_pair(self.selector)?)),
            (7, 0) => Ok(Instruction::Push(implied_pair(self.selector)?)),
            // the load of the base register
            (7, 2) => Err(Fault::Privileged),
            (d, 4) => Ok(Instruction::Operate(operation_at(d), Source::Immediate, register)),
            _ => self.decode_first_after(),
        }
    }

    // 1dl
    fn decode_second(self) -> Result<Instruction, Fault>
        ensures { result ≡ second_of self.selector self.d self.l }
    {
        match (self.d, self.l) {
            // INPUT and PIN
            (0, 1 | 3) => Err(Fault::Privileged),
            // EX
            (2..=4, _) | (5, 1 | 3) if self.l % 2 == 1 => Err(Fault::Privileged),
            _ if self.selector.is_some() => Err(Fault::NotCarried),
            (0, 4) => Ok(Instruction::Jump),
            (0, 6) => Ok(Instruction::Call),
            (d, 0) => Ok(Instruction::JumpIf(condition_at(d))),
            (d, 2) => Ok(Instruction::CallIf(condition_at(d))),
            _ => Err(Fault::NotCarried),
        }
    }

    // 3dl
    fn decode_last(self) -> Result<Instruction, Fault>
        ensures { result ≡ last_of self.selector self.d self.l }
    {
        match (self.selector, self.d, self.l) {
            (None, 7, 7) => Ok(Instruction::Halt),
            (Some(_), 7, 7) => Err(Fault::NotCarried),
            (selector, d, 7) => Ok(Instruction::LoadFromMemory(
                register_at(d),
                implied_pair(selector)?,
            )),
            (selector, 7, l) => Ok(Instruction::StoreToMemory(
                register_at(l),
                implied_pair(selector)?,
            )),
            (None, d, l) => Ok(Instruction::Load(register_at(d), register_at(l))),
            (Some(_), _, _) => Err(Fault::NotCarried),
        }
    }
}

// The instruction of an op code after a selecting byte, if any: a fault if it is privileged, or not carried in this form.
pub fn decode(selector: Option<Selector>, op: u8) -> Result<Instruction, Fault>
    ensures { result ≡ decode_of selector op }
{
    let code = Code {
        selector,
        d: op / 8 % 8,
        l: op % 8,
    };
    match op {
        0o000..=0o077 => code.decode_first(),
        0o100..=0o177 => code.decode_second(),
        0o200..=0o277 => Ok(Instruction::Operate(
            operation_at(code.d),
            source_at(code.l),
            implied(selector),
        )),
        0o300..=0o377 => code.decode_last(),
    }
}
