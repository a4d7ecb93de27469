// The single board: one buffer of 65,536 bytes, of which all pages but the sealed take writes.
ghost use Rattle.std.specs.Prelude.{◌≡◌, []};
ghost use Rattle.boards.specs.Boards.{shows};
ghost use Rattle.boards.specs.Singles.{single_mem};

use crate::board;

pub type Filling = board::Filling<16>;

pub type Sealed = board::Sealed<16>;

pub type SingleBoard<'a> = board::Board<'a, 'a, 16>;

impl board::Sealed<16> {
    // The buffer as a memory. On a buffer of another length it shows zeros and takes no writes.
    #[tactic(auto, using(crate::proofs::Meanings::single_shows))]
    pub fn board<'a>(self, buffer: &'a mut [u8]) -> SingleBoard<'a>
        ensures bytes { result.lower.now ≡ buffer.old }
        ensures empty { result.upper.now ≡ [] }
        ensures sealed { result.sealed ≡ self.pages }
        ensures shown { shows result ≡ single_mem buffer.old self.pages.mask }
    {
        self.over(buffer, &[])
    }
}
