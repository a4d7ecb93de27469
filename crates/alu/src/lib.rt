// The arithmetic and logic unit: eight operations on two bytes and the carry, and three shifts.
#![tactic(auto)]

ghost use Rattle.std.specs.Prelude.{◌≡◌};
ghost use Rattle.alu.specs.Operations.{parity_of, flags_of, result_of, shifted_of};

use registers::bank::Flags;

// In the order of the middle digit of their op codes.
#[derive(Clone, Copy)]
pub enum Operation {
    Add,
    AddCarry,
    Subtract,
    SubtractBorrow,
    And,
    ExclusiveOr,
    Or,
    Compare,
}

#[derive(Clone, Copy)]
pub enum Shift {
    LeftCircular,
    RightCircular,
    RightExtended,
}

// What an operation gives: a byte and the four flags.
#[derive(Clone, Copy)]
pub struct Outcome {
    pub byte: u8,
    pub flags: Flags,
}

// Whether an odd number of bits is set.
fn odd_ones(b: u8) -> bool
    ensures { result ≡ parity_of b }
{
    b.count_ones() % 2 == 1
}

// The flags that go with the byte, with the given carry.
pub fn flags_of(carry: bool, byte: u8) -> Flags
    ensures { result ≡ flags_of carry byte }
{
    Flags {
        carry,
        zero: byte == 0,
        sign: byte >= 128,
        parity: odd_ones(byte),
    }
}

fn with_flags(carry: bool, byte: u8) -> Outcome
    ensures { result ≡ record { byte = byte; flags = flags_of carry byte } }
{
    Outcome {
        byte,
        flags: flags_of(carry, byte),
    }
}

fn sum(a: u8, b: u8, carry: bool) -> Outcome
    ensures { result ≡ result_of Operation.AddCarry a b carry }
{
    let total = a as u16 + b as u16 + carry as u16;
    with_flags(total >= 256, (total % 256) as u8)
}

fn difference(a: u8, b: u8, borrow: bool) -> Outcome
    ensures { result ≡ result_of Operation.SubtractBorrow a b borrow }
{
    let taken = b as u16 + borrow as u16;
    with_flags((a as u16) < taken, ((a as u16 + 512 - taken) % 256) as u8)
}

// What the operation makes of the register, the operand and the carry.
pub fn operate(op: Operation, a: u8, b: u8, carry: bool) -> Outcome
    ensures { result ≡ result_of op a b carry }
{
    match op {
        Operation::Add => sum(a, b, false),
        Operation::AddCarry => sum(a, b, carry),
        Operation::Subtract => difference(a, b, false),
        Operation::SubtractBorrow => difference(a, b, carry),
        Operation::And => with_flags(false, a & b),
        Operation::ExclusiveOr => with_flags(false, a ^ b),
        Operation::Or => with_flags(false, a | b),
        Operation::Compare => Outcome {
            byte: a,
            flags: difference(a, b, false).flags,
        },
    }
}

// The shifted byte, and the carry then.
pub fn shifted(s: Shift, a: u8, carry: bool) -> (u8, bool)
    ensures { result ≡ shifted_of s a carry }
{
    match s {
        Shift::LeftCircular => (a.rotate_left(1), a >= 128),
        Shift::RightCircular => (a.rotate_right(1), a % 2 == 1),
        Shift::RightExtended => (a / 2 + 128 * carry as u8, a % 2 == 1),
    }
}
