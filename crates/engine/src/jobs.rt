// The engine: its eight records.
ghost use Rattle.std.specs.Prelude.{◌≡◌, ℕ, ◌*◌, ◌≤◌, false};
ghost use Rattle.model.specs.Worlds.{jobs_of, twice};

use model::job::Job;

// Eight jobs, each with a record, also while it is closed: the definitions have one for every number, and so no `Option`.
// No table names a page twice, and the sums since an opening fit: a step takes less than 2^32 nanoseconds and makes at most one system call.
#[derive(Drop)]
pub struct Engine {
    pub(crate) jobs: [Job; 8],
    ghost once: { (j : ℕ) → twice (jobs_of jobs j).table ≡ false },
    ghost timed: { (j : ℕ) → (jobs_of jobs j).time ≤ (jobs_of jobs j).steps * 4294967295 },
    ghost called: { (j : ℕ) → (jobs_of jobs j).calls ≤ (jobs_of jobs j).steps },
}
