// Receipts that are shown to an engine which did not give them: judged by the same grounds as its own.
ghost use Rattle.std.specs.Prelude.{Some, IfOk};
ghost use Rattle.model.specs.Worlds.{jobs_of};
ghost use Rattle.engine.specs.Answers.{owed_of};
ghost use Rattle.engine.specs.Receipts.{Acceptable};

use super::told;
use boards::single::Filling;
use engine::jobs::Engine;
use engine::receipt::{Outcome, Receipt, Returned};
use memory::Memory;
use memory::sets::PageSet;
use model::job::Registers;
use refusal::Refusal;
use std::test::Fail;

const FIRST: [u8; 15] = [60, 0, 0, 0, 0, 0, 0, 0, 0, 0, 0, 0, 0, 0, 0];

const SECOND: [u8; 15] = [76, 0, 0, 0, 0, 0, 0, 0, 0, 0, 0, 0, 0, 0, 0];

const REGISTERS: Registers = Registers {
    a: 1,
    b: 2,
    c: 3,
    d: 4,
    e: 5,
    h: 6,
    l: 7,
    x: 8,
};

// Abandons a receipt that fits, which is accepted. Each crate that ends a receipt so has these lines: this requires that it fits, which neither
// it nor the engine holds by its type, and no public function of a library requires anything.
fn abandon_fitting(engine: &mut Engine, owed: Receipt)
    requires { Acceptable (owed_of (Some owed)) (jobs_of engine.old.jobs) }
{
    engine.abandon(owed).unwrap();
}

// Gives each engine the receipt of the other, if the two say the same. Whether they did.
fn exchange(one: &mut Engine, other: &mut Engine, first: Receipt, second: Receipt) -> bool
    requires its { Acceptable (owed_of (Some first)) (jobs_of one.old.jobs) }
    requires theirs { Acceptable (owed_of (Some second)) (jobs_of other.old.jobs) }
{
    if first == second {
        abandon_fitting(other, first);
        abandon_fitting(one, second);
        return true;
    }
    abandon_fitting(one, first);
    abandon_fitting(other, second);
    false
}

// Runs job 0, and gives the receipt if it stops at a system call.
fn run_to_call<M: Memory>(engine: &mut Engine, memory: &mut M) -> Result<Option<Receipt>, Refusal>
    ensures { IfOk result (λ o. Acceptable (owed_of o) (jobs_of engine.new.jobs)) }
{
    let Outcome { run: _, receipt } = engine.run(memory, 0, 9)?;
    Ok(receipt)
}

// Runs job 0 of both engines up to a system call, and has the receipts change places.
fn exchange_calls<M: Memory>(
    one: &mut Engine,
    other: &mut Engine,
    memory: &mut M,
) -> Result<bool, Refusal> {
    let Some(first) = run_to_call(one, memory)? else {
        return Ok(false);
    };
    // a match and no `?`: the first receipt has to be ended here
    match run_to_call(other, memory) {
        Ok(Some(second)) => Ok(exchange(one, other, first, second)),
        Ok(None) => {
            abandon_fitting(one, first);
            Ok(false)
        }
        Err(refusal) => {
            abandon_fitting(one, first);
            Err(refusal)
        }
    }
}

// Runs job 0 up to a system call, and offers its receipt to another engine with a reply. How that refused it, if it did.
fn offer<M: Memory>(
    engine: &mut Engine,
    other: &mut Engine,
    memory: &mut M,
) -> Result<Option<Refusal>, Refusal> {
    let Some(owed) = run_to_call(engine, memory)? else {
        return Ok(None);
    };
    let refused = other.reply(owed, REGISTERS).err();
    Ok(refused.map(|Returned { refusal, receipt }| {
        abandon_fitting(engine, receipt);
        refusal
    }))
}

fn start<M: Memory>(engine: &mut Engine, memory: &mut M, table: [u8; 15]) -> Result<(), Refusal> {
    engine.open(memory, 0, table, 0)?;
    engine.load(memory, 0, 0, &[0o067])
}

// Whether job 0 is open.
fn is_open(engine: &Engine) -> bool {
    engine.state_of(0).is_ok()
}

// Receipts with the same job and number serve at either engine, and close the job there.
#[test]
fn a_strangers_receipt_fits(rt: HostRuntime) -> Result<(), Fail> {
    let mut bytes = vec![in rt.alloc(); 0u8; 65536]?;
    let mut board = Filling::new().seal(PageSet::none()).board(&mut bytes);
    let mut one = Engine::new();
    let mut other = Engine::new();
    start(&mut one, &mut board, FIRST)?;
    start(&mut other, &mut board, SECOND)?;
    assert!(rt; exchange_calls(&mut one, &mut other, &mut board)?);
    assert!(rt; !is_open(&one) && !is_open(&other));
    Ok(())
}

// A reply with a receipt that does not fit is refused: with 6 where the job is not open, with 14 where it does not wait. The job there stays.
#[test]
fn a_strangers_receipt_is_handed_back(rt: HostRuntime) -> Result<(), Fail> {
    let mut bytes = vec![in rt.alloc(); 0u8; 65536]?;
    let mut board = Filling::new().seal(PageSet::none()).board(&mut bytes);
    let mut one = Engine::new();
    let mut other = Engine::new();
    start(&mut one, &mut board, FIRST)?;
    let closed = offer(&mut one, &mut other, &mut board)?;
    assert_eq!(rt; closed.map(told), Some((6, 0)));
    start(&mut one, &mut board, FIRST)?;
    start(&mut other, &mut board, SECOND)?;
    let idle = offer(&mut one, &mut other, &mut board)?;
    assert_eq!(rt; idle.map(told), Some((14, 0)));
    assert!(rt; !is_open(&one) && is_open(&other));
    Ok(())
}
