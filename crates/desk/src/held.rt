// The receipts that are held, a place for each job: an array of eight, since memory is fixed and nothing is allocated.
ghost use Rattle.std.specs.Prelude.{◌≡◌, ℕ, ◌<◌, length, replicate, Some, None, slice_index_or, slice_set};
ghost use Rattle.desk.specs.Held.{number_in, fitting, without};

use engine::receipt::Receipt;
use std::{array, mem};

pub struct Held {
    pub(crate) receipts: [Option<Receipt>; 8],
    ghost eight: { length receipts ≡ 8 },
}

// A place that is empty.
pub(crate) fn gone(receipt: Option<Receipt>)
    requires { receipt ≡ None }
{
    match receipt {
        None => {}
        Some(_) => unreachable(),
    }
}

impl Held {
    pub(crate) fn none() -> Held
        ensures { result.receipts ≡ replicate 8 None }
    {
        Held {
            receipts: array::from_fn(|_| None),
        }
    }

    // The number of the job's receipt.
    pub(crate) fn number(&self, job: u8) -> Option<u32>
        ensures { result ≡ number_in (slice_index_or self.now.receipts job None) }
    {
        let place = self.receipts.get(usize::from(job))?;
        place.as_ref().map(|receipt| receipt.number())
    }

    // Puts another in a job's place, and gives what was there. The engine ran the job, so its number is below eight; a type that says so would be
    // made and unmade in every call.
    pub(crate) fn replace(&mut self, job: u8, new: Option<Receipt>) -> Option<Receipt>
        requires { job < 8 }
        ensures value { result ≡ slice_index_or self.old.receipts job None }
        ensures after { self.new.receipts ≡ slice_set self.old.receipts job new }
    {
        mem::replace(&mut self.receipts[usize::from(job)], new)
    }

    // Takes the job's receipt out, if it has this number. Tried: `get_mut` and `?`, where nothing says what the place holds after the loan.
    pub(crate) fn take(&mut self, job: u8, number: u32) -> Option<Receipt>
        ensures value { result ≡ fitting number (slice_index_or self.old.receipts job None) }
        ensures after { self.new.receipts ≡ without result self.old.receipts job }
    {
        if usize::from(job) >= self.receipts.len() {
            return None;
        }
        self.receipts[usize::from(job)].take_if(|receipt| receipt.number() == number)
    }

    // Lets go of the places, once they are empty: one by one. Tried: a pattern of eight `None`, a loop over the array, its `map`. None of them
    // ends an array whose items cannot be dropped, and a receipt cannot.
    pub(crate) fn let_go(self)
        requires { (k : ℕ) → slice_index_or self.receipts k None ≡ None }
    {
        let Held { receipts } = self;
        let [a, b, c, d, e, f, g, h] = receipts;
        gone(a);
        gone(b);
        gone(c);
        gone(d);
        gone(e);
        gone(f);
        gone(g);
        gone(h);
    }
}
