// A third program, which tries to read and write what is not its own.
ghost use Rattle.std.specs.Prelude.{◌≡◌, IfOk, IfErr};
ghost use Rattle.boards.specs.Boards.{shows};
ghost use Rattle.model.specs.Calls.{opens, refused};
ghost use Rattle.model.specs.Worlds.{world_of, does};

use crate::host::Host;
use crate::listings::{JUMPS_BEYOND, LOADS_TABLE, MOVES_INTO_TARIFF, READS_BEYOND, WRITES_TARIFF};
use crate::problem::Problem;
use refusal::{Ground, Refusal};
use std::alloc::Global;
use std::{fmt, slice};
use stop::{Fault, Stop, Trap};

const JOB: u8 = 2;

// A page of its own, 6, and the tariff to read.
const TABLE: [u8; 15] = [108, 84, 0, 0, 0, 0, 0, 0, 0, 0, 0, 0, 0, 0, 0];

// What it tries, and how.
#[derive(Clone, Copy)]
pub struct Trespass {
    words: &'static str,
    table: [u8; 15],
    code: &'static [u8],
}

// In the order in which they are tried.
pub const TRESPASSES: [Trespass; 6] = [
    Trespass {
        words: "stores into the tariff",
        table: TABLE,
        code: &WRITES_TARIFF,
    },
    Trespass {
        words: "moves a block into the tariff",
        table: TABLE,
        code: &MOVES_INTO_TARIFF,
    },
    Trespass {
        words: "reads a sector without access",
        table: TABLE,
        code: &READS_BEYOND,
    },
    Trespass {
        words: "jumps to a sector without access",
        table: TABLE,
        code: &JUMPS_BEYOND,
    },
    Trespass {
        words: "loads a sector table of its own",
        table: TABLE,
        code: &LOADS_TABLE,
    },
    // Alder's page is 3
    Trespass {
        words: "is opened with Alder's page in its table",
        table: [108, 84, 52, 0, 0, 0, 0, 0, 0, 0, 0, 0, 0, 0, 0],
        code: &READS_BEYOND,
    },
];

impl Trespass {
    // Opens the job anew, runs it, and closes it again: the stop of its run, or the refusal of its opening. Another refusal is a problem, and no end
    // of a trespass: its words speak of an opening, and the job would stay open.
    fn attempt(&self, host: &mut Host, limit: u16) -> Result<Result<Stop, Refusal>, Refusal>
        ensures { IfOk result (λ end. IfErr end (λ e. (does (opens 2 self.now.table 0) (world_of host.old.desk.now.engine.jobs (shows host.old.board.now))).answer ≡ refused e)) }
    {
        if let Err(refusal) = host.open(JOB, self.table) {
            return Ok(Err(refusal));
        }
        host.load(JOB, self.code)?;
        let ran = host.run(JOB, limit)?;
        host.close(JOB)?;
        Ok(Ok(ran.stop))
    }
}

// A trespass, and how it ended.
#[derive(Clone, Copy)]
pub struct Attempt {
    pub trespass: Trespass,
    pub end: Result<Stop, Refusal>,
}

// What the third program has still to try, and what it tried.
#[derive(Drop)]
pub struct Trespasser {
    left: slice::Iter<'static, Trespass>,
    pub attempts: Vec<Attempt>,
}

impl Trespasser {
    pub fn new(heap: Global, trespasses: &'static [Trespass]) -> Trespasser {
        Trespasser {
            left: trespasses.iter(),
            attempts: Vec::new(heap),
        }
    }

    // Tries the next trespass, if one is left.
    pub fn turn(&mut self, host: &mut Host, limit: u16) -> Result<(), Problem> {
        if let Some(next) = self.left.next() {
            let end = next.attempt(host, limit)?;
            self.attempts.push(Attempt {
                trespass: *next,
                end,
            })?;
        }
        Ok(())
    }
}

// In this demonstration's own words, so by functions: the `Display` of a stop or a ground would be the product's.
fn stop_words(stop: Stop) -> &'static str {
    match stop {
        Stop::Limit => "it ran on to its limit",
        Stop::Trapped(Trap::Halt) => "it ran to its end",
        Stop::Trapped(Trap::SystemCall) => "it asked the host",
        Stop::Trapped(Trap::Breakpoint) => "it came to a breakpoint",
        Stop::Faulted(Fault::Privileged) => "the instruction is privileged",
        Stop::Faulted(Fault::NoAccess) => "it has no access there",
        Stop::Faulted(Fault::NoWriting) => "it may not write there",
        Stop::Faulted(Fault::NotCarried) => "there is no such instruction",
    }
}

fn refusal_words(ground: Ground) -> &'static str {
    match ground {
        Ground::PageHeld => "another job holds that page",
        _ => "it cannot be opened so",
    }
}

// The trespass, and then as `stop 7: it may not write there`.
impl fmt::Display for Attempt {
    fn fmt<W: fmt::Write>(&self, f: &mut fmt::Formatter<W>) -> fmt::Result {
        write!(f, "{:<42}", self.trespass.words)?;
        match self.end {
            Ok(stop) => write!(f, "stop {}: {}", stop.number(), stop_words(stop)),
            Err(Refusal { ground, .. }) => {
                write!(f, "refused {}: {}", ground.number(), refusal_words(ground))
            }
        }
    }
}
