// The twin board: pages 0 to 7 in a buffer for writing, 8 to 15 in one for reading, 32,768 bytes each. Of the first all pages but the sealed take writes.
ghost use Rattle.std.specs.Prelude.{◌≡◌};
ghost use Rattle.boards.specs.Boards.{shows};
ghost use Rattle.boards.specs.Twins.{twin_mem};

use crate::board;

pub type Filling = board::Filling<8>;

pub type Sealed = board::Sealed<8>;

pub type TwinBoard<'a, 'b> = board::Board<'a, 'b, 8>;

impl board::Sealed<8> {
    // The buffers as a memory. If either has another length it shows zeros and takes no writes.
    #[tactic(auto, using(crate::proofs::Meanings::twin_shows))]
    pub fn board<'a, 'b>(self, lower: &'a mut [u8], upper: &'b [u8]) -> TwinBoard<'a, 'b>
        ensures writing { result.lower.now ≡ lower.old }
        ensures reading { result.upper.now ≡ upper.now }
        ensures sealed { result.sealed ≡ self.pages }
        ensures shown { shows result ≡ twin_mem lower.old upper.now self.pages.mask }
    {
        self.over(lower, upper)
    }
}
