// Why a call was refused, and where.
#![tactic(auto)]

ghost use Rattle.std.specs.Prelude.{◌≡◌, ℕ, Some};
ghost use Rattle.refusal.specs.Grounds.{number_of, refusal_of};
ghost use Rattle.refusal.specs.Lines.{line_of};
ghost use Rattle.refusal.specs.Judging.{when, at as at_place};

use std::fmt;

// The grounds in the order of their numbers, which is the order of judging: the first that holds is reported.
#[derive(Clone, Copy, PartialEq, Eq, Debug)]
pub enum Ground {
    // 1: an image of more than 16,384 bytes, or a buffer of the wrong length
    WrongLength = 1,
    // 2: the first five bytes of an image are not D, P, J, 0, 1
    NoImage = 2,
    // 3: the table, the starting address or a block of an image is incomplete
    Incomplete = 3,
    // 4: the job number is above 7
    NoSuchJob = 4,
    // 5: an opening of an open job
    AlreadyOpen = 5,
    // 6: another call on a job that is not open
    NotOpen = 6,
    // 7: an entry of the table has bit 0 or 1 set
    ReservedBits = 7,
    // 8: an entry names a page that a lower one names
    PageNamedTwice = 8,
    // 9: an entry that allows writing names a page that takes none
    PageNotWritable = 9,
    // 10: an entry names a page that takes writes and that another open job holds
    PageHeld = 10,
    // 11: the job is waiting for a reply
    JobWaiting = 11,
    // 12: the job has ended
    JobEnded = 12,
    // 13: the steps so far and the limit pass 4,294,967,295
    TooManySteps = 13,
    // 14: the job is not waiting, or not for this receipt
    NotOwed = 14,
    // 15: past the end of the addresses or of a page, or a page or sector number above 15
    OutOfRange = 15,
    // 16: a byte in a sector without access
    NoAccess = 16,
    // 17: a byte in a page that takes no writes
    NoWrites = 17,
}

// A ground and its place: a file offset, a sector, an address or an offset, by the ground; else 0.
#[derive(Clone, Copy, PartialEq, Eq, Debug)]
pub struct Refusal {
    pub ground: Ground,
    pub place: u32,
}

impl Ground {
    // By discriminant, as a trap's and a fault's: a line each, which a trait would be no plainer than.
    pub fn number(self) -> u8
        ensures { result ≡ number_of self }
    {
        self as u8
    }

    // A refusal on this ground.
    pub fn at(self, place: u32) -> Refusal
        ensures { result ≡ refusal_of self place }
    {
        Refusal {
            ground: self,
            place,
        }
    }

    // Refuses where the ground holds, at place 0.
    pub fn refuse_if(self, holds: bool) -> Result<(), Refusal>
        ensures { result ≡ when holds self }
    {
        if holds { Err(self.at(0)) } else { Ok(()) }
    }

    // Refuses where the ground holds somewhere, at the first such place.
    pub fn refuse_at(self, place: Option<u32>) -> Result<(), Refusal>
        ensures { result ≡ at_place self place }
    {
        place.map_or(Ok(()), |first| Err(self.at(first)))
    }
}

// As `refused 2 at 0`: number and place. By hand, since a derived one would have no `output`.
impl fmt::Display for Refusal {
    ghost output = { λ r. Some (line_of r) };

    fn fmt<W: fmt::Write>(&self, f: &mut fmt::Formatter<W>) -> fmt::Result {
        let number = self.ground.number();
        let place = self.place;
        write!(f, "refused {number} at {place}")
    }
}
