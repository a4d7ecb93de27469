// The conversation with a shipper's program: it asks by a system call, and the reply sets its registers.
ghost use Rattle.std.specs.Prelude.{◌≡◌};
ghost use Rattle.office.specs.Questions.{question_of, shipment_reply, plain_reply};

use crate::charge::Charge;
use model::job::Registers;
use registers::bank::Bank;

// What is to be priced: a zone of the tariff, and a weight.
#[derive(Clone, Copy)]
pub struct Shipment {
    pub zone: u8,
    pub weight: u8,
}

// What a program says by a system call, as A tells it.
#[derive(Clone, Copy)]
pub enum Question {
    // 1: it asks for the next shipment
    Next,
    // 2: it delivers a charge, in B, C and D
    Delivers(Charge),
    // any other number
    Unknown(u8),
}

// What the registers of a program that waits say.
impl From<&Bank> for Question {
    ghost from_gives = { λ bank q. q ≡ question_of bank.now };

    fn from(bank: &Bank) -> Question {
        match bank.a {
            1 => Question::Next,
            2 => Question::Delivers(Charge::of_bytes(bank.b, bank.c, bank.d)),
            a => Question::Unknown(a),
        }
    }
}

// Zone and weight in B and C, and zero elsewhere.
fn registers_with(b: u8, c: u8) -> Registers
    ensures { result ≡ plain_reply b c }
{
    Registers {
        b,
        c,
        ..Registers::default()
    }
}

// The reply to the first question: the zone in B and the weight in C, or 377 in B where there is no more.
pub fn hand_out(shipment: Option<Shipment>) -> Registers
    ensures { result ≡ shipment_reply shipment }
{
    match shipment {
        Some(next) => registers_with(next.zone, next.weight),
        None => registers_with(0o377, 0),
    }
}

// The reply to a charge: nothing.
pub fn thank() -> Registers
    ensures { result ≡ plain_reply 0 0 }
{
    registers_with(0, 0)
}
