// The bytes of an instruction, fetched one after the other.
ghost use Rattle.std.specs.Prelude.{◌≡◌};
ghost use Rattle.processor.specs.Fetches.{fetch_of, byte_at, address_at, operand_of};

use decode::instruction::{Instruction, Source};
use decode::{decode, selector_at};
use space::Space;
use stop::Fault;

// What was fetched, an instruction or its operand as one number, and the address after it.
#[derive(Clone, Copy)]
pub struct Fetched<T> {
    pub value: T,
    pub next: u16,
}

// The op code at an address, after a selecting byte or not.
pub(crate) fn fetch<S: Space>(space: &S, at: u16) -> Result<Fetched<Instruction>, Fault>
    ensures { result ≡ fetch_of (S.cells space.now) at }
{
    let first = space.read(at)?;
    let next = at.wrapping_add(1);
    match selector_at(first) {
        None => {
            let value = decode(None, first)?;
            Ok(Fetched { value, next })
        }
        Some(selector) => {
            let op = space.read(next)?;
            let value = decode(Some(selector), op)?;
            Ok(Fetched {
                value,
                next: next.wrapping_add(1),
            })
        }
    }
}

fn read_byte<S: Space>(space: &S, at: u16) -> Result<Fetched<u16>, Fault>
    ensures { result ≡ byte_at (S.cells space.now) at }
{
    let value = space.read(at)? as u16;
    Ok(Fetched {
        value,
        next: at.wrapping_add(1),
    })
}

// The low byte comes first.
fn read_address<S: Space>(space: &S, at: u16) -> Result<Fetched<u16>, Fault>
    ensures { result ≡ address_at (S.cells space.now) at }
{
    let low = space.read(at)?;
    let next = at.wrapping_add(1);
    let high = space.read(next)?;
    Ok(Fetched {
        value: u16::from_be_bytes([high, low]),
        next: next.wrapping_add(1),
    })
}

// The bytes of an instruction after its op code.
pub(crate) fn fetch_operand<S: Space>(
    space: &S,
    i: Instruction,
    at: u16,
) -> Result<Fetched<u16>, Fault>
    ensures { result ≡ operand_of i (S.cells space.now) at }
{
    match i {
        Instruction::LoadImmediate(_) => read_byte(space, at),
        Instruction::Operate(_, Source::Immediate, _) => read_byte(space, at),
        Instruction::Jump
        | Instruction::JumpIf(_)
        | Instruction::Call
        | Instruction::CallIf(_)
        | Instruction::PushImmediate => read_address(space, at),
        _ => Ok(Fetched { value: 0, next: at }),
    }
}
