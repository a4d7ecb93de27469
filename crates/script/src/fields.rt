// The numbers behind a line's first word, one after the other.
ghost use Rattle.std.specs.Prelude.{ℕ, ◌≤◌, IfOk};

use crate::faults::Fault;
use model::job::Registers;
use std::alloc::Global;
use words::numbers::number;
use words::{Split, split_word};

// The most bytes that a line may name: far more than memory has.
const MOST_BYTES: u32 = 1048576;

#[derive(Clone, Copy)]
pub struct Fields<'a> {
    rest: &'a [u8],
}

// A number in range.
fn in_range(word: &[u8], most: u32) -> Result<u32, Fault>
    ensures { IfOk result (λ n. n ≤ most) }
{
    number(word, most).ok_or(Fault::OutOfRange)
}

fn byte_in(word: &[u8]) -> Result<u8, Fault> {
    Ok(in_range(word, 255)? as u8)
}

// So many times the same byte.
#[derive(Clone, Copy)]
struct Repeated {
    times: u32,
    value: u8,
}

impl Repeated {
    // A word of bytes: `V`, or `N*V` for N times V.
    fn of(word: &[u8]) -> Result<Repeated, Fault> {
        let Some(star) = word.iter().position(|b| *b == b'*') else {
            return Ok(Repeated {
                times: 1,
                value: byte_in(word)?,
            });
        };
        Ok(Repeated {
            times: in_range(&word[..star], MOST_BYTES)?,
            value: byte_in(&word[star + 1..])?,
        })
    }

    fn append_to(self, bytes: &mut Vec<u8>) -> Result<(), Fault> {
        let length = bytes.len() + self.times as usize;
        if length > MOST_BYTES as usize {
            return Err(Fault::TooManyBytes);
        }
        // Room up to a power of two, as one byte after the other would make it: by the exact length, a word of many bytes and one byte behind
        // it would take twice the room.
        if bytes.capacity() < length {
            bytes.reserve(length.next_power_of_two() - bytes.len())?;
        }
        bytes.resize(length, self.value)?;
        Ok(())
    }
}

impl<'a> Fields<'a> {
    pub fn of(rest: &'a [u8]) -> Fields<'a> {
        Fields { rest }
    }

    // The next word.
    fn word(&mut self) -> Result<&'a [u8], Fault> {
        let Split { word, rest } = split_word(self.rest).ok_or(Fault::MissingNumber)?;
        self.rest = rest;
        Ok(word)
    }

    pub fn number(&mut self, most: u32) -> Result<u32, Fault>
        ensures { IfOk result (λ n. n ≤ most) }
    {
        let word = self.word()?;
        in_range(word, most)
    }

    // This and `address` are a line each, which a function generic over the number's type would be no plainer than.
    pub fn byte(&mut self) -> Result<u8, Fault> {
        Ok(self.number(255)? as u8)
    }

    pub fn address(&mut self) -> Result<u16, Fault> {
        Ok(self.number(65535)? as u16)
    }

    pub(crate) fn table(&mut self) -> Result<[u8; 15], Fault> {
        let mut table = [0; 15];
        for entry in table.iter_mut() {
            *entry = self.byte()?;
        }
        Ok(table)
    }

    pub(crate) fn registers(&mut self) -> Result<Registers, Fault> {
        Ok(Registers {
            a: self.byte()?,
            b: self.byte()?,
            c: self.byte()?,
            d: self.byte()?,
            e: self.byte()?,
            h: self.byte()?,
            l: self.byte()?,
            x: self.byte()?,
        })
    }

    // The bytes to the end of the line. The heap is a parameter of what allocates: a struct would hold it for one call.
    pub fn bytes(mut self, heap: Global) -> Result<Vec<u8>, Fault> {
        self.take_bytes(heap)
    }

    // The same, with nothing left. The loop counts nothing: what is left is a slice.
    pub(crate) fn take_bytes(&mut self, heap: Global) -> Result<Vec<u8>, Fault> {
        let mut bytes = Vec::new(heap);
        while let Some(Split { word, rest }) = split_word(self.rest) {
            Repeated::of(word)?.append_to(&mut bytes)?;
            self.rest = rest;
        }
        Ok(bytes)
    }

    // A buffer of so many zeros.
    pub fn buffer(&mut self, heap: Global) -> Result<Vec<u8>, Fault> {
        let times = self.number(MOST_BYTES)?;
        Ok(vec![in heap; 0; times as usize]?)
    }

    // No word is left.
    pub fn end(&self) -> Result<(), Fault> {
        split_word(self.rest).map_or(Ok(()), |_| Err(Fault::ExtraNumber))
    }
}
