// The host's side: an engine at its desk, and the board that its jobs work on. The tests of jobs beside each other have such lines of their
// own: in common are a dozen, fewer than a library for both would have, and a reader of either would have to look there.
ghost use Rattle.std.specs.Prelude.{◌≡◌};
ghost use Rattle.boards.specs.Boards.{shows};
ghost use Rattle.model.specs.Calls.{opens};
ghost use Rattle.model.specs.Worlds.{world_of, does};
ghost use Rattle.engine.specs.Answers.{done_answer};

use crate::problem::Problem;
use boards::single::SingleBoard;
use desk::desk::Desk;
use model::job::{Registers, State};
use refusal::Refusal;
use runs::Ran;

// Both are lent, since the desk, which cannot be dropped, is ended apart from its board.
#[derive(Drop)]
pub struct Host<'h, 'b> {
    pub desk: &'h mut Desk,
    pub board: &'h mut SingleBoard<'b>,
}

impl Host<'_, '_> {
    // Opens a job, which starts at address 0.
    pub fn open(&mut self, job: u8, table: [u8; 15]) -> Result<(), Refusal>
        ensures { does (opens job table 0) (world_of self.old.desk.now.engine.jobs (shows self.old.board.now)) ≡ record { world = world_of self.new.desk.now.engine.jobs (shows self.new.board.now); answer = done_answer result } }
    {
        self.desk.open(self.board, job, table, 0)
    }

    // Loads a job's program at address 0.
    pub fn load(&mut self, job: u8, code: &[u8]) -> Result<(), Refusal> {
        self.desk.load(self.board, job, 0, code)
    }

    pub fn run(&mut self, job: u8, limit: u16) -> Result<Ran, Refusal> {
        self.desk.run(self.board, job, limit)
    }

    pub fn state(&self, job: u8) -> Result<State, Refusal> {
        self.desk.state_of(job)
    }

    // Replies to the system call that a job waits for.
    pub fn reply(&mut self, job: u8, registers: Registers) -> Result<(), Problem> {
        let number = self.desk.owed(job).ok_or(Problem::NotHeld)?;
        self.desk.reply(job, number, registers)?;
        Ok(())
    }

    pub fn close(&mut self, job: u8) -> Result<(), Refusal> {
        self.desk.close(job)
    }
}
