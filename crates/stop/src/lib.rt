// Why a run stopped.
#![tactic(auto)]

ghost use Rattle.std.specs.Prelude.{◌≡◌, ℕ};
ghost use Rattle.stop.specs.Stops.{number_of, trap_number, fault_number};

// An instruction that ends the run once it is carried out: it counts, and P is after it.
#[derive(Clone, Copy, PartialEq, Eq, Debug)]
pub enum Trap {
    Halt = 2,
    SystemCall = 3,
    Breakpoint = 4,
}

// What keeps an instruction from being carried out: it does not count, and P is at its first byte.
#[derive(Clone, Copy, PartialEq, Eq, Debug)]
pub enum Fault {
    Privileged = 5,
    NoAccess = 6,
    NoWriting = 7,
    NotCarried = 8,
}

#[derive(Clone, Copy, PartialEq, Eq, Debug)]
pub enum Stop {
    Limit,
    Trapped(Trap),
    Faulted(Fault),
}

impl Trap {
    pub fn number(self) -> u8
        ensures { result ≡ trap_number self }
    {
        self as u8
    }
}

impl Fault {
    pub fn number(self) -> u8
        ensures { result ≡ fault_number self }
    {
        self as u8
    }
}

impl Stop {
    // The number that answers and programs print, 1 to 8.
    pub fn number(self) -> u8
        ensures { result ≡ number_of self }
    {
        match self {
            Stop::Limit => 1,
            Stop::Trapped(trap) => trap.number(),
            Stop::Faulted(fault) => fault.number(),
        }
    }
}
