// Making records.
ghost use Rattle.std.specs.Prelude.{◌≡◌};
ghost use Rattle.stop.specs.Stops.{number_of};
ghost use Rattle.runs.specs.Runs.{calls_in};
ghost use Rattle.model.specs.Jobs.{closed_job, opened_job, replied_job, state_of, status_after, status_by_number, is_open as open_status, is_waiting as waiting_status, is_ended as ended_status};

use super::job::{Job, Registers, State, Status};
use registers::bank::Bank;
use registers::processor::Processor;
use stop::{Stop, Trap};

impl Status {
    pub fn is_open(self) -> bool
        ensures { result ≡ open_status self }
    {
        self != Status::Closed
    }

    pub fn is_waiting(self) -> bool
        ensures { result ≡ waiting_status self }
    {
        self == Status::Waiting
    }

    pub fn is_ended(self) -> bool
        ensures { result ≡ ended_status self }
    {
        self == Status::Ended
    }
}

// The system calls that a run made: it ends at the first.
pub fn calls_in(stop: Stop) -> u32
    ensures { result ≡ calls_in stop }
{
    u32::from(stop == Stop::Trapped(Trap::SystemCall))
}

// What a stop makes of the job.
pub fn status_after(stop: Stop) -> Status
    ensures value { result ≡ status_after stop }
    ensures numbered { result ≡ status_by_number (number_of stop) }
{
    match stop {
        Stop::Limit => Status::Ready,
        Stop::Trapped(Trap::Halt) => Status::Ended,
        Stop::Trapped(Trap::SystemCall) => Status::Waiting,
        Stop::Trapped(Trap::Breakpoint) => Status::Ready,
        Stop::Faulted(_) => Status::Ended,
    }
}

impl Job {
    // A job that is not open: always the same record.
    pub fn closed() -> Job
        ensures { result ≡ closed_job }
    {
        Job {
            processor: Processor::reset(0),
            table: [0; 15],
            steps: 0,
            time: 0,
            calls: 0,
            status: Status::Closed,
        }
    }

    // A job as it is opened.
    pub fn opened(table: [u8; 15], start: u16) -> Job
        ensures { result ≡ opened_job table start }
    {
        Job {
            processor: Processor::reset(start),
            table,
            status: Status::Ready,
            ..Job::closed()
        }
    }

    // The job with a reply in the bank in use, whose flags stay, ready to go on.
    pub fn replied(mut self, registers: Registers) -> Job
        ensures { result ≡ replied_job self registers }
    {
        let Registers {
            a,
            b,
            c,
            d,
            e,
            h,
            l,
            x,
        } = registers;
        let bank = self.processor.bank_mut();
        let flags = bank.flags;
        *bank = Bank {
            a,
            b,
            c,
            d,
            e,
            h,
            l,
            x,
            flags,
        };
        self.status = Status::Ready;
        self
    }

    // What the job shows of itself.
    pub fn state(&self) -> State
        ensures { result ≡ state_of self.now }
    {
        State {
            processor: self.processor,
            steps: self.steps,
            time: self.time,
            calls: self.calls,
            status: self.status,
        }
    }
}

impl State {
    // A buffer for a state, to be lent to the call that fills it.
    pub fn blank() -> State
        ensures { result ≡ state_of closed_job }
    {
        Job::closed().state()
    }
}
