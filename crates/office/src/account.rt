// What the office keeps of a shipper while it prices.
ghost use Rattle.std.specs.Prelude.{◌≡◌, ℕ, ◌∷◌, ◌++◌, [], is_ok, if◌then◌else◌};
ghost use Rattle.office.specs.Accounts.{shipment_at, handed_after, Answered};
ghost use Rattle.office.specs.declared.account.NoAnswer.TheVariants.{NoMemory};

use crate::charge::Charge;
use crate::question::{Question, Shipment, hand_out, thank};
use model::job::Registers;
use std::alloc::{AllocFailed, Global};
use thiserror::Error;

// How many shipments the shipper was handed, and what it charged, in their order. A number, and no iterator: that would have the list on loan
// for as long as the account stands, and a list may grow from question to question.
#[derive(Drop)]
pub struct Account {
    pub handed: usize,
    pub charges: Vec<Charge>,
}

// Why a question has no answer.
#[derive(Clone, Copy, Debug, PartialEq, Eq, Error)]
pub enum NoAnswer {
    #[error("a program asks {0}, which is none of its questions")]
    Unknown(u8),
    #[error("there is no memory for a charge")]
    NoMemory,
}

// By hand, since the contract of `answer` names the error that `?` makes.
impl From<AllocFailed<Charge>> for NoAnswer {
    ghost from_gives = { λ _ e. e ≡ NoMemory };

    fn from(_refused: AllocFailed<Charge>) -> NoAnswer {
        NoAnswer::NoMemory
    }
}

impl Account {
    pub fn new(heap: Global) -> Account
        ensures handed { result.handed ≡ 0 }
        ensures charges { result.charges.items ≡ [] }
    {
        Account {
            handed: 0,
            charges: Vec::new(heap),
        }
    }

    // The first shipment that was not handed out yet.
    pub fn next(&mut self, shipments: &[Shipment]) -> Option<Shipment>
        ensures value { result ≡ shipment_at shipments.now self.old.handed }
        ensures handed { self.new.handed ≡ handed_after result self.old.handed }
        ensures charges { self.new.charges ≡ self.old.charges }
    {
        let shipment = shipments.get(self.handed).copied()?;
        self.handed += 1;
        Some(shipment)
    }

    // Puts the charge behind those before it.
    pub fn note(&mut self, charge: Charge) -> Result<(), AllocFailed<Charge>>
        ensures handed { self.new.handed ≡ self.old.handed }
        ensures charges { self.new.charges.items ≡ (if is_ok result then self.old.charges.items ++ charge ∷ [] else self.old.charges.items) }
    {
        self.charges.push(charge)
    }

    // The reply to what a program asked: the next shipment is handed out, and a charge noted.
    pub fn answer(
        &mut self,
        question: Question,
        shipments: &[Shipment],
    ) -> Result<Registers, NoAnswer>
        ensures { Answered question shipments.now self.old self.new result }
    {
        match question {
            Question::Next => Ok(hand_out(self.next(shipments))),
            Question::Delivers(charge) => {
                self.note(charge)?;
                Ok(thank())
            }
            Question::Unknown(a) => Err(NoAnswer::Unknown(a)),
        }
    }
}
