// A memory of 65,536 bytes in sixteen pages of 4,096.
#![tactic(auto)]

ghost use Rattle.std.specs.Prelude.{◌≡◌, ℕ, ◌+◌, ◌*◌, ◌/◌, ◌<◌, ◌≤◌, Bool, true, false};
ghost use Rattle.memory.specs.Memories.{Mem, write_answer, stored};

use refusal::Refusal;

pub mod numbers;
pub mod page;
pub mod sets;

use page::Page;

// Every memory shows this meaning: its bytes, and the pages that take writes, which never change.
pub trait Memory {
    ghost mem: { Self → Mem };

    fn read(&self, at: u16) -> u8
        ensures { result ≡ (mem self.now).byte at };

    // Refused with 17 at the address where the page takes no writes. Address and byte are two parameters, here and in a space: they meet in a write alone.
    fn write(&mut self, at: u16, b: u8) -> Result<(), Refusal>
        ensures answer { result ≡ write_answer (mem self.old) at }
        ensures after { mem self.new ≡ stored (mem self.old) at b };

    fn takes_writes(&self, page: Page) -> bool
        ensures { result ≡ (mem self.now).takes page.number };
}
