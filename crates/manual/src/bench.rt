// A program on a bench: loaded at address 0 of job 0 and run. Desk and memory stay two parameters, since the memory is lent at each call.
use boards::single::{Filling, SingleBoard};
use desk::desk::Desk;
use memory::Memory;
use memory::sets::PageSet;
use model::job::State;
use refusal::Refusal;
use runs::Ran;
use std::alloc::AllocError;
use std::process::Abort;

// Sector 0 is page 0 and may be written, sector 1 is page 1 and may not; the rest give no access.
pub const TABLE: [u8; 15] = [12, 20, 0, 0, 0, 0, 0, 0, 0, 0, 0, 0, 0, 0, 0];

// The buffer of a board.
pub fn zeros<R: AllocGlobal>(rt: &R) -> Result<Vec<u8>, AllocError> {
    vec![in rt.alloc(); 0u8; 65536]
}

// A board over it with no page sealed.
pub fn plain<'a>(bytes: &'a mut [u8]) -> SingleBoard<'a> {
    Filling::new().seal(PageSet::none()).board(bytes)
}

// What is found at a desk of its own, which is finished then with what its jobs are owed. It requires that `found` may be called, so no library
// has it.
pub(crate) fn at_desk<T, E, F: FnOnce(&mut Desk) -> Result<T, E>>(found: F) -> Result<T, E>
    requires { F.IsAlwaysCallable found }
{
    let mut desk = Desk::new();
    let told = found(&mut desk);
    let _ = desk.finish();
    told
}

// What is seen of a run: its answer, the job's state after it, and the number of the system call that it waits for.
#[derive(Clone, Copy)]
pub struct Seen {
    pub run: Ran,
    pub state: State,
    pub owed: Option<u32>,
}

// Runs job 0, and looks at it. The tests of jobs beside each other have two lines like these, since neither crate stands on the other.
pub fn watch<M: Memory>(desk: &mut Desk, memory: &mut M, limit: u16) -> Result<Seen, Refusal> {
    let run = desk.run(memory, 0, limit)?;
    Ok(Seen {
        run,
        state: desk.state_of(0)?,
        owed: desk.owed(0),
    })
}

// A program over a memory, for at most so many steps. Each table of programs has a loop of its own over this, since each compares something else.
pub fn trial<M: Memory>(memory: &mut M, program: &[u8], limit: u16) -> Result<Seen, Refusal> {
    at_desk(|desk| {
        desk.open(memory, 0, TABLE, 0)?;
        desk.load(memory, 0, 0, program)?;
        watch(desk, memory, limit)
    })
}

// A refusal's number and place, which are what its tests compare: docs/ states them. Each crate of tests has these lines, since neither stands on the other.
pub fn told(refusal: Refusal) -> (u8, u32) {
    (refusal.ground.number(), refusal.place)
}

// Checks how a call is refused, or that it is not.
pub fn check_answer<T: Drop>(
    rt: &impl Abort,
    name: &str,
    answer: Result<T, Refusal>,
    refused: Option<(u8, u32)>,
) {
    assert_eq!(rt; answer.err().map(told), refused, "{name}");
}

// Checks that a call is refused, with this number and place.
pub fn check_refused<T: Drop>(rt: &impl Abort, answer: Result<T, Refusal>, refused: (u8, u32)) {
    check_answer(rt, "", answer, Some(refused));
}
