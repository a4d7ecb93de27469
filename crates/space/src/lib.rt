// A space: what a job sees at each of its 65,536 addresses. The processor runs over any space.
#![tactic(auto)]

ghost use Rattle.std.specs.Prelude.{◌≡◌, ℕ, Bool};
ghost use Rattle.space.specs.Cells.{Cell, Frame, read_of, allow_of, store_of};

use stop::Fault;

pub trait Space {
    ghost cells: { Self → ℕ → Cell };

    // All that a write leaves as it is. Whatever writes to a space says again that this is kept: it is said of a change, so no type can hold it.
    ghost frame: { Self → Frame };

    fn read(&self, at: u16) -> Result<u8, Fault>
        ensures { result ≡ read_of (cells self.now) at };

    fn write(&mut self, at: u16, b: u8) -> Result<(), Fault>
        ensures answer { result ≡ allow_of (cells self.old) at }
        ensures after { cells self.new ≡ store_of (cells self.old) at b }
        ensures kept { frame self.new ≡ frame self.old };
}
