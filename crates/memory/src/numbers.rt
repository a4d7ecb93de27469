// Making the numbers of pages and sectors.
ghost use Rattle.std.specs.Prelude.{◌≡◌, ℕ, ◌+◌, ◌*◌, ◌/◌, ◌%◌};
ghost use Rattle.memory.specs.Memories.{sixteenth, page_at};
ghost use Rattle.memory.specs.Numbers.{number_made};

use super::page::{Page, Sixteenth};
use refusal::{Ground, Refusal};

// Refused with 15 at 0 above fifteen.
impl<const SPACE: u8> TryFrom<u8> for Sixteenth<SPACE> {
    type Error = Refusal;

    ghost try_from_gives = { λ number made. number_made made ≡ sixteenth number };

    fn try_from(number: u8) -> Result<Sixteenth<SPACE>, Refusal> {
        if number < 16 {
            Ok(Sixteenth { number })
        } else {
            Err(Ground::OutOfRange.at(0))
        }
    }
}

impl<const SPACE: u8> Sixteenth<SPACE> {
    // The one that has the address.
    pub fn of(at: u16) -> Sixteenth<SPACE>
        ensures { result.number ≡ page_at at }
    {
        Sixteenth {
            number: (at / 4096) as u8,
        }
    }

    pub fn number(self) -> u8
        ensures { result ≡ self.entry.number }
    {
        self.number
    }
}

impl Page {
    // The address in this page that lies as far within as `at` lies within its own.
    pub fn address(self, at: u16) -> u16
        ensures { result ≡ self.number * 4096 + at % 4096 }
    {
        u16::from(self.number) * 4096 + at % 4096
    }
}
