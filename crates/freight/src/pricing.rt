// The two ways of pricing: each shipper alone, and both beside each other and a trespasser.
use crate::host::Host;
use crate::problem::Problem;
use crate::seat::Seat;
use crate::shippers::{SHIPPERS, Shipper, tariff_board};
use crate::trespass::{Attempt, TRESPASSES, Trespass, Trespasser};
use desk::desk::Desk;
use office::bill::Bill;
use std::alloc::Global;

// How many steps a job makes before the next has its turn.
pub const SLICE: u16 = 200;

// More rounds than any pricing takes.
const MOST_ROUNDS: u16 = 10000;

// What came of the shippers, in their order, and of the trespasses.
#[derive(Drop)]
pub struct Priced {
    pub bills: Vec<Bill>,
    pub attempts: Vec<Attempt>,
}

// Who prices at a host beside whom, and how many steps a job makes before the next has its turn.
#[derive(Clone, Copy)]
struct Setting<'a> {
    shippers: &'a [Shipper],
    trespasses: &'static [Trespass],
    slice: u16,
}

// Those that share a host.
#[derive(Drop)]
struct Floor {
    seats: Vec<Seat>,
    trespasser: Trespasser,
}

impl Floor {
    fn open(host: &mut Host, heap: Global, setting: Setting) -> Result<Floor, Problem> {
        let mut seats = Vec::new(heap);
        for shipper in setting.shippers {
            seats.push(Seat::take(host, heap, *shipper)?)?;
        }
        Ok(Floor {
            seats,
            trespasser: Trespasser::new(heap, setting.trespasses),
        })
    }

    fn is_over(&self) -> bool {
        self.seats.iter().all(|seat| seat.is_over())
    }

    // A slice for each.
    fn round(&mut self, host: &mut Host, slice: u16) -> Result<(), Problem> {
        for seat in self.seats.iter_mut() {
            seat.turn(host, slice)?;
        }
        self.trespasser.turn(host, slice)
    }

    fn settle(self, host: &Host, heap: Global) -> Result<Priced, Problem> {
        let mut bills = Vec::new(heap);
        for seat in self.seats {
            bills.push(seat.bill(host)?)?;
        }
        Ok(Priced {
            bills,
            attempts: self.trespasser.attempts,
        })
    }
}

impl Setting<'_> {
    // Round after round, until the shippers are over.
    fn price_at(self, host: &mut Host, heap: Global) -> Result<Priced, Problem> {
        let mut floor = Floor::open(host, heap, self)?;
        for _ in 0..MOST_ROUNDS {
            if floor.is_over() {
                return floor.settle(host, heap);
            }
            floor.round(host, self.slice)?;
        }
        Err(Problem::Endless)
    }

    // The same at a host of their own: a new engine and a new board.
    fn price(self, heap: Global) -> Result<Priced, Problem> {
        let mut bytes = vec![in heap; 0u8; 65536]?;
        let mut board = tariff_board(&mut bytes)?;
        let mut desk = Desk::new();
        let mut host = Host {
            desk: &mut desk,
            board: &mut board,
        };
        let priced = self.price_at(&mut host, heap);
        let _ = desk.finish();
        priced
    }
}

// The bill of each shipper at a host of its own, where it is run up to each of its questions.
pub fn alone(heap: Global) -> Result<Vec<Bill>, Problem> {
    let mut bills = Vec::new(heap);
    for shipper in SHIPPERS {
        let setting = Setting {
            shippers: &[shipper],
            trespasses: &[],
            slice: u16::MAX,
        };
        let mut priced = setting.price(heap)?;
        bills.append(&mut priced.bills)?;
    }
    Ok(bills)
}

// One host for all, in slices.
pub fn interleaved(heap: Global) -> Result<Priced, Problem> {
    let setting = Setting {
        shippers: &SHIPPERS,
        trespasses: &TRESPASSES,
        slice: SLICE,
    };
    setting.price(heap)
}
