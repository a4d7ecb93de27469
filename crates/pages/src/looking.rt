// What a look shows.
ghost use Rattle.std.specs.Prelude.{◌≡◌, length};
ghost use Rattle.refusal.specs.Judging.{unless_refused};
ghost use Rattle.pages.specs.Held.{shown};
ghost use Rattle.pages.specs.Looks.{judge_look, seen};

use crate::sight::Sight;
use memory::Memory;
use refusal::Refusal;

// Fills the whole buffer with the bytes from an address on, or refuses and leaves it untouched.
pub fn look<M: Memory>(table: &[u8; 15], memory: &M, at: u16, out: &mut [u8]) -> Result<(), Refusal>
    ensures answer { result ≡ judge_look at (length out.old) (shown table.now (M.mem memory.now)) }
    ensures after { out.new ≡ unless_refused result out.old (seen (length out.old) at (shown table.now (M.mem memory.now))) }
{
    let sight = Sight { table, memory };
    sight.judge(at, out.len())?;
    sight.show(at, out);
    Ok(())
}
