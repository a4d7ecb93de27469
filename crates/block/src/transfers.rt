// BT, BTR and BCV. They count by C, and end early at a match.
ghost use Rattle.std.specs.Prelude.{◌≡◌};
ghost use Rattle.block.specs.Afters.{after};
ghost use Rattle.block.specs.Transfers.{element_of, converted_of, element_by, flagged, block_of};

use alu::flags_of;
use registers::bank::{Bank, Pair};
use space::Space;
use stop::Fault;

#[derive(Clone, Copy)]
pub enum Block {
    // BT
    Forward,
    // BTR
    Backward,
    // BCV
    Convert,
}

// How many elements were done, and whether the last one matched.
#[derive(Clone, Copy)]
pub struct Transfer {
    pub elements: u16,
    pub matched: bool,
}

// One element of BT or BTR: the stored byte with B added to it.
#[inline(always)]
fn transfer_element<S: Space>(bank: &mut Bank, space: &mut S, by: u16) -> Result<u16, Fault>
    ensures all { after result bank.new (S.cells space.new) ≡ element_of by bank.old (S.cells space.old) }
    ensures kept { S.frame space.new ≡ S.frame space.old }
{
    let from = bank.pair(Pair::HL);
    let to = bank.pair(Pair::DE);
    let byte = space.read(from)?.wrapping_add(bank.a);
    space.write(to, byte)?;
    bank.put_pair(Pair::HL, from.wrapping_add(by));
    bank.put_pair(Pair::DE, to.wrapping_add(by));
    Ok(byte as u16 + bank.b as u16)
}

// One element of BCV: the byte at DE by the table at HL, which does not leave the 256 bytes of H.
#[inline(always)]
fn convert_element<S: Space>(bank: &mut Bank, space: &mut S) -> Result<u16, Fault>
    ensures all { after result bank.new (S.cells space.new) ≡ converted_of bank.old (S.cells space.old) }
    ensures kept { S.frame space.new ≡ S.frame space.old }
{
    let to = bank.pair(Pair::DE);
    let place = space.read(to)?.wrapping_add(bank.l);
    let byte = space.read(u16::from_be_bytes([bank.h, place]))?;
    space.write(to, byte)?;
    bank.a = place;
    bank.put_pair(Pair::DE, to.wrapping_add(1));
    Ok(byte as u16 + bank.b as u16)
}

// A match and no closure: there are three kinds, and a closure would have to be asked what it does.
fn element<S: Space>(kind: Block, bank: &mut Bank, space: &mut S) -> Result<u16, Fault>
    ensures all { after result bank.new (S.cells space.new) ≡ element_by kind bank.old (S.cells space.old) }
    ensures kept { S.frame space.new ≡ S.frame space.old }
{
    match kind {
        Block::Forward => transfer_element(bank, space, 1),
        Block::Backward => transfer_element(bank, space, 65535),
        Block::Convert => convert_element(bank, space),
    }
}

// The flags at the end are those of the last addition of B.
fn finish(bank: &mut Bank, sum: u16)
    ensures { bank.new ≡ flagged sum bank.old }
{
    bank.flags = flags_of(sum >= 256, (sum % 256) as u8);
}

// Element after element, up to a match, the count of C, where 0 stands for 256, or a fault. The elements before a fault stand.
pub fn run_block<S: Space>(kind: Block, bank: &mut Bank, space: &mut S) -> Result<Transfer, Fault>
    ensures all { after result bank.new (S.cells space.new) ≡ block_of kind bank.old (S.cells space.old) }
    ensures kept { S.frame space.new ≡ S.frame space.old }
{
    let most = u16::from(bank.c.wrapping_sub(1)) + 1;
    let mut sum = 0;
    for before in 0..most {
        sum = element(kind, bank, space)?;
        if sum == 256 {
            finish(bank, sum);
            return Ok(Transfer {
                elements: before + 1,
                matched: true,
            });
        }
        bank.c = bank.c.wrapping_sub(1);
    }
    finish(bank, sum);
    Ok(Transfer {
        elements: most,
        matched: false,
    })
}
