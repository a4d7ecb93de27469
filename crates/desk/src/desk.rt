// An engine together with the receipts that its jobs are owed.
ghost use Rattle.std.specs.Prelude.{◌≡◌, ℕ, true, None, slice_index_or};
ghost use Rattle.model.specs.Worlds.{jobs_of};
ghost use Rattle.desk.specs.Owing.{owed_to};

use crate::held::Held;
use engine::jobs::Engine;

// An engine and what its jobs are owed: the desk holds the receipt of each job that waits, and no other.
// It cannot be dropped, since its receipts cannot: `finish` ends it.
pub struct Desk {
    pub(crate) engine: Engine,
    pub(crate) held: Held,
    ghost kept: { (j : ℕ) → owed_to j (jobs_of engine.jobs j) (slice_index_or held.receipts j None) ≡ true },
}

// The desk holds no such receipt.
#[derive(Clone, Copy, PartialEq, Eq, Debug)]
pub struct NotHeld;
