// What can go wrong in the demonstration. `main` gives it, and it is printed by its derived `Debug`, so its variants are bare and each `From` is
// written out: a derived one would keep what it is made of, and print that too.
use desk::desk::NotHeld;
use office::account::NoAnswer;
use refusal::Refusal;
use std::alloc::{AllocError, AllocFailed};
use std::io;
use stop::Stop;

#[derive(Clone, Copy, Debug)]
pub enum Problem {
    // the engine refused a call
    Refused(Refusal),
    // a shipper's program stopped other than by a system call or its end
    Stopped(Stop),
    // a shipper asked what the office does not know
    Asked(u8),
    // the desk does not hold the receipt that is to be replied to
    NotHeld,
    // a shipper took more turns than any pricing needs
    Endless,
    // there is no memory left
    NoMemory,
    // nothing can be printed
    Output,
}

impl From<Refusal> for Problem {
    fn from(refusal: Refusal) -> Problem {
        Problem::Refused(refusal)
    }
}

impl From<NotHeld> for Problem {
    fn from(_missing: NotHeld) -> Problem {
        Problem::NotHeld
    }
}

impl From<NoAnswer> for Problem {
    fn from(none: NoAnswer) -> Problem {
        match none {
            NoAnswer::Unknown(a) => Problem::Asked(a),
            NoAnswer::NoMemory => Problem::NoMemory,
        }
    }
}

impl From<AllocError> for Problem {
    fn from(_error: AllocError) -> Problem {
        Problem::NoMemory
    }
}

impl<T: Drop> From<AllocFailed<T>> for Problem {
    fn from(_refused: AllocFailed<T>) -> Problem {
        Problem::NoMemory
    }
}

impl From<io::Error> for Problem {
    fn from(_error: io::Error) -> Problem {
        Problem::Output
    }
}
