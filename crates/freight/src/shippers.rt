// The two shippers, and the board that they work on.
use crate::listings::{ALDER, BIRCH, TARIFF};
use boards::single::{Filling, SingleBoard};
use memory::page::Page;
use memory::sets::PageSet;
use refusal::Refusal;

// Sector 0 is a page of its own, 3 or 4, and sector 1 the tariff in page 5, which it may only read.
#[derive(Clone, Copy)]
pub struct Shipper {
    pub name: &'static str,
    // how it prices
    pub method: &'static str,
    pub job: u8,
    pub table: [u8; 15],
    pub code: &'static [u8],
}

pub const SHIPPERS: [Shipper; 2] = [
    Shipper {
        name: "Alder Freight",
        method: "price by zone and weight, fuel surcharge, minimum charge",
        job: 0,
        table: [60, 84, 0, 0, 0, 0, 0, 0, 0, 0, 0, 0, 0, 0, 0],
        code: &ALDER,
    },
    Shipper {
        name: "Birch Parcel",
        method: "first price of the zone, steps of weight, a sixteenth off if heavy",
        job: 1,
        table: [76, 84, 0, 0, 0, 0, 0, 0, 0, 0, 0, 0, 0, 0, 0],
        code: &BIRCH,
    },
];

// A board with the tariff in page 5, which is filled first and sealed then. The tests of jobs beside each other make such a one of their own, with
// another tariff: a dozen lines, fewer than a library for both would have.
pub fn tariff_board<'a>(bytes: &'a mut [u8]) -> Result<SingleBoard<'a>, Refusal> {
    let five = Page::try_from(5)?;
    let filling = Filling::new();
    filling.fill(bytes, five, 0, &TARIFF)?;
    Ok(filling.seal(PageSet::none().with(five)).board(bytes))
}
