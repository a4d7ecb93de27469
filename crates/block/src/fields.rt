// BFAC and BFSB: the field at HL added to the field at DE, or subtracted from it, from right to left with the carry.
ghost use Rattle.std.specs.Prelude.{◌≡◌};
ghost use Rattle.block.specs.Afters.{after};
ghost use Rattle.block.specs.Fields.{field_element_of, width_of, field_of};

use alu::{Operation, operate};
use registers::bank::{Bank, Pair};
use space::Space;
use stop::Fault;

fn field_element<S: Space>(op: Operation, bank: &mut Bank, space: &mut S) -> Result<(), Fault>
    ensures all { after result bank.new (S.cells space.new) ≡ field_element_of op bank.old (S.cells space.old) }
    ensures kept { S.frame space.new ≡ S.frame space.old }
{
    let from = bank.pair(Pair::HL);
    let to = bank.pair(Pair::DE);
    let operand = space.read(from)?;
    let outcome = operate(op, space.read(to)?, operand, bank.flags.carry);
    space.write(to, outcome.byte)?;
    bank.put_pair(Pair::HL, from.wrapping_sub(1));
    bank.put_pair(Pair::DE, to.wrapping_sub(1));
    bank.flags = outcome.flags;
    Ok(())
}

// How many bytes the fields have: the low four bits of C, where 0 stands for 16.
pub fn width_of(c: u8) -> u8
    ensures { result ≡ width_of c }
{
    if c % 16 == 0 { 16 } else { c % 16 }
}

// The elements before a fault stand, with the flags from before the instruction. Tried as `inspect_err` that puts the flags back: what the bank is where the closure is not called stays open.
pub fn run_field<S: Space>(op: Operation, bank: &mut Bank, space: &mut S) -> Result<(), Fault>
    ensures all { after result bank.new (S.cells space.new) ≡ field_of op bank.old (S.cells space.old) }
    ensures kept { S.frame space.new ≡ S.frame space.old }
{
    let flags = bank.flags;
    for _ in 0..width_of(bank.c) {
        if let Err(fault) = field_element(op, bank, space) {
            bank.flags = flags;
            return Err(fault);
        }
    }
    Ok(())
}
