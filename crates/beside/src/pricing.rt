// Two jobs price by one sealed tariff page, and a third trespasses.
use super::told;
use boards::single::{Filling, SingleBoard};
use desk::desk::Desk;
use memory::Memory;
use memory::page::Page;
use memory::sets::PageSet;
use model::job::State;
use refusal::Refusal;
use std::test::Fail;

// The tariff is in page 5, which is sealed: a price for each zone.
const TARIFF: [u8; 4] = [10, 20, 40, 80];

// Sector 0 is a page of the job's own, sector 1 the tariff, which it may only read.
const FIRST: [u8; 15] = [60, 84, 0, 0, 0, 0, 0, 0, 0, 0, 0, 0, 0, 0, 0];

const SECOND: [u8; 15] = [76, 84, 0, 0, 0, 0, 0, 0, 0, 0, 0, 0, 0, 0, 0];

const THIRD: [u8; 15] = [108, 84, 0, 0, 0, 0, 0, 0, 0, 0, 0, 0, 0, 0, 0];

// LH 020, LL zone, LAM, HALT: A is the price of the zone.
const ZONE_ONE: [u8; 6] = [0o056, 0o020, 0o066, 1, 0o307, 0];

const ZONE_THREE: [u8; 6] = [0o056, 0o020, 0o066, 3, 0o307, 0];

// LH 020, LL 0, LMA: a store into the tariff. LH 040, LL 0, LAM: a load from a sector without access.
const WRITES_TARIFF: [u8; 5] = [0o056, 0o020, 0o066, 0, 0o370];

const READS_OUTSIDE: [u8; 5] = [0o056, 0o040, 0o066, 0, 0o307];

// A board with the tariff, and a host, as the program freight has them: a dozen lines, fewer than a library for both would have.
fn tariff_board<'a>(bytes: &'a mut [u8]) -> Result<SingleBoard<'a>, Refusal> {
    let five = Page::try_from(5)?;
    let filling = Filling::new();
    filling.fill(bytes, five, 0, &TARIFF)?;
    Ok(filling.seal(PageSet::none().with(five)).board(bytes))
}

// A desk over the board.
#[derive(Drop)]
struct Host<'h, 'b> {
    desk: &'h mut Desk,
    board: &'h mut SingleBoard<'b>,
}

impl Host<'_, '_> {
    fn start(&mut self, job: u8, table: [u8; 15], code: &[u8]) -> Result<(), Refusal> {
        self.desk.open(self.board, job, table, 0)?;
        self.desk.load(self.board, job, 0, code)
    }

    // Runs a job, and tells the stop, by its number, and the job's state. The tests from the manual have two lines like these, since neither crate
    // stands on the other.
    fn watch(&mut self, job: u8, limit: u16) -> Result<(u8, State), Refusal> {
        let ran = self.desk.run(self.board, job, limit)?;
        let state = self.desk.state_of(job)?;
        Ok((ran.stop.number(), state))
    }
}

// What is found at a new desk over a new board. It requires that `found` may be called, so no library has it.
fn at_host<T, F: FnOnce(&mut Host<'_, '_>) -> Result<T, Fail>>(
    rt: &HostRuntime,
    found: F,
) -> Result<T, Fail>
    requires { F.IsAlwaysCallable found }
{
    let mut bytes = vec![in rt.alloc(); 0u8; 65536]?;
    let mut board = tariff_board(&mut bytes)?;
    let mut desk = Desk::new();
    let told = found(&mut Host {
        desk: &mut desk,
        board: &mut board,
    });
    let _ = desk.finish();
    told
}

// The price that a shipper's program finds alone, in one go, with the steps and the time.
fn alone(rt: &HostRuntime, table: [u8; 15], code: &[u8]) -> Result<(u8, u32, u64), Fail> {
    at_host(rt, |host| {
        host.start(0, table, code)?;
        let (_, state) = host.watch(0, 100)?;
        Ok((state.processor.bank().a, state.steps, state.time))
    })
}

// Price, steps and time come out the same alone and beside a neighbour that runs in between.
#[test]
fn neighbours_leave_the_price(rt: HostRuntime) -> Result<(), Fail> {
    at_host(&rt, |host| {
        host.start(0, FIRST, &ZONE_ONE)?;
        host.start(1, SECOND, &ZONE_THREE)?;
        let (one, _) = host.watch(0, 2)?;
        let (two, _) = host.watch(1, 1)?;
        assert_eq!(rt; (one, two), (1, 1));
        let (stop, first) = host.watch(0, 100)?;
        let (other, second) = host.watch(1, 100)?;
        assert_eq!(rt; (stop, other), (2, 2));
        assert_eq!(rt;
            (first.processor.bank().a, second.processor.bank().a),
            (20, 80)
        );
        assert_eq!(rt;
            (20, first.steps, first.time),
            alone(&rt, FIRST, &ZONE_ONE)?
        );
        assert_eq!(rt;
            (80, second.steps, second.time),
            alone(&rt, SECOND, &ZONE_THREE)?
        );
        Ok(())
    })
}

// A job that writes the tariff gets stop 7, one that reads outside its table stop 6; the tariff and the neighbour stay.
#[test]
fn trespassers_are_stopped(rt: HostRuntime) -> Result<(), Fail> {
    at_host(&rt, |host| {
        host.start(0, FIRST, &ZONE_ONE)?;
        host.start(2, THIRD, &WRITES_TARIFF)?;
        let (seven, _) = host.watch(2, 100)?;
        host.desk.close(2)?;
        host.start(2, THIRD, &READS_OUTSIDE)?;
        let (six, _) = host.watch(2, 100)?;
        assert_eq!(rt; (seven, six), (7, 6));
        let mut seen = [9u8; 4];
        host.desk.look(host.board, 0, 4096, &mut seen)?;
        assert_eq!(rt; seen, TARIFF);
        let (_, state) = host.watch(0, 100)?;
        assert_eq!(rt; state.processor.bank().a, 20);
        Ok(())
    })
}

// A closed job's pages go to another with their bytes cleared, and a page that a job holds does not.
#[test]
fn pages_change_hands(rt: HostRuntime) -> Result<(), Fail> {
    at_host(&rt, |host| {
        host.start(0, FIRST, &ZONE_ONE)?;
        let held = host.desk.open(host.board, 1, FIRST, 0);
        assert_eq!(rt; held.map_err(told), Err((10, 0)));
        host.desk.close(0)?;
        assert_eq!(rt; host.board.read(12288), 0o056);
        host.desk.open(host.board, 1, FIRST, 0)?;
        assert_eq!(rt; host.board.read(12288), 0);
        Ok(())
    })
}
