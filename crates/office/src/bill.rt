// What a shipper's pricing came to.
ghost use Rattle.std.specs.Prelude.{◌≡◌, Decides};
ghost use Rattle.office.specs.Bills.{Agrees};

use crate::charge::Charge;

// The charges, the steps and nanoseconds of the engine, and in how many runs it went.
#[derive(Drop)]
pub struct Bill {
    pub charges: Vec<Charge>,
    pub steps: u32,
    pub time: u64,
    pub runs: u32,
}

// Whether the charges are the same, in the same order.
fn same_charges(ours: &[Charge], theirs: &[Charge]) -> bool
    ensures { Decides result (ours.now ≡ theirs.now) }
{
    ours == theirs
}

impl Bill {
    // Whether two bills have the same charges, in the same order, the same steps and the same time, in however many runs.
    pub fn agrees(&self, other: &Bill) -> bool
        ensures { Decides result (Agrees self.now other.now) }
    {
        same_charges(&self.charges, &other.charges)
            && self.steps == other.steps
            && self.time == other.time
    }
}
