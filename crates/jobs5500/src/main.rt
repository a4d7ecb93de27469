// jobs5500: reads a script of calls from standard input, and prints one line of answer for each.
#![tactic(auto)]

use console::answers::{Answer, Denial};
use console::calls::answer_call;
use console::questions::answer_question;
use console::setup::{BOARD, HALF, Layers, Plan, Rom, Sealed};
use desk::desk::Desk;
use layers::rom::RomLayer;
use layers::seal::SealLayer;
use memory::Memory;
use memory::sets::PageSet;
use script::commands::Command;
use script::faults::Fault;
use script::parsing::parse;
use std::alloc::Global;
use std::io;
use std::io::{BufRead, BufReader, Split, Stdin};

// A desk at work over its memory.
struct Machine<M> {
    desk: Desk,
    memory: M,
}

impl<M: Memory> Machine<M> {
    fn over(memory: M) -> Machine<M> {
        Machine {
            desk: Desk::new(),
            memory,
        }
    }

    fn answer(&mut self, command: Command, heap: Global) -> Result<Answer, Denial> {
        match command {
            Command::Setup(_) => Err(Denial::Error(Fault::MemoryIsMade)),
            Command::Call(call) => answer_call(&mut self.desk, &mut self.memory, call),
            Command::Question(question) => answer_question(&self.memory, question, heap),
        }
    }

    // What is still owed is abandoned.
    fn end(self)
    where
        M: Drop,
    {
        let Machine { desk, memory } = self;
        desk.finish();
        drop(memory);
    }
}

// The script that is read, line by line, and the runtime that prints its answers.
#[derive(Drop)]
struct Console<'a> {
    rt: &'a HostRuntime,
    lines: Split<BufReader<Stdin>>,
}

fn say(rt: &HostRuntime, answer: Result<Answer, Denial>) -> anyhow::Result<()> {
    match answer {
        Ok(answer) => rt.println(answer)?,
        Err(denial) => rt.println(denial)?,
    }
    Ok(())
}

// The command of a line, if it has one. A fault is answered here.
fn read(rt: &HostRuntime, line: io::Result<Vec<u8>>) -> anyhow::Result<Option<Command>> {
    parse(line?.as_slice(), rt.alloc()).or_else(|fault| {
        say(rt, Err(Denial::Error(fault)))?;
        Ok(None)
    })
}

// Both loops go over the lines: a method that gave the next command would be asked in a `for` over numbers that nothing uses, and over an iterator
// of commands (tried) each function that is given one would require that it goes on and ends.
impl Console<'_> {
    // Follows the lines on memory up to the first other command, which it gives.
    fn set_up(&mut self, plan: &mut Plan, board: &mut [u8]) -> anyhow::Result<Option<Command>> {
        for line in &mut self.lines {
            match read(self.rt, line)? {
                None => {}
                Some(Command::Setup(setup)) => say(self.rt, plan.follow(setup, board))?,
                Some(command) => return Ok(Some(command)),
            }
        }
        Ok(None)
    }

    // Answers the first command and the lines up to the end of input.
    fn answer_all<M: Memory>(
        &mut self,
        machine: &mut Machine<M>,
        first: Option<Command>,
    ) -> anyhow::Result<()> {
        let heap = self.rt.alloc();
        if let Some(command) = first {
            say(self.rt, machine.answer(command, heap))?;
        }
        for line in &mut self.lines {
            if let Some(command) = read(self.rt, line)? {
                say(self.rt, machine.answer(command, heap))?;
            }
        }
        Ok(())
    }

    // The rest of the script over a memory.
    fn serve<M: Memory + Drop>(&mut self, memory: M, first: Option<Command>) -> anyhow::Result<()> {
        let mut machine = Machine::over(memory);
        let result = self.answer_all(&mut machine, first);
        machine.end();
        result
    }

    // The rest of the script over a board with its layers.
    fn serve_layered<M: Memory + Drop>(
        &mut self,
        board: M,
        layers: Layers,
        first: Option<Command>,
    ) -> anyhow::Result<()> {
        let sealed = layers.seal.unwrap_or(PageSet::none());
        match layers.rom {
            None => self.serve(SealLayer::over(board, sealed), first),
            Some(Rom { page, bytes }) => {
                let pile = SealLayer::over(RomLayer::over(board, page, bytes.as_slice()), sealed);
                self.serve(pile, first)
            }
        }
    }
}

fn main(rt: HostRuntime) -> anyhow::Result<()> {
    let mut console = Console {
        rt: &rt,
        lines: BufReader::new(rt.alloc(), rt.stdin())?.split(rt.alloc(), b'\n'),
    };
    let mut board = vec![in rt.alloc(); 0u8; BOARD]?;
    let mut plan = Plan::new();
    let first = console.set_up(&mut plan, &mut board)?;
    let Plan { stage, layers } = plan;
    match stage.sealed(PageSet::none()) {
        Sealed::Single(sealed) => console.serve_layered(sealed.board(&mut board), layers, first),
        Sealed::Twin(sealed) => {
            let upper = vec![in rt.alloc(); 0u8; HALF]?;
            board.truncate(HALF);
            console.serve_layered(sealed.board(&mut board, upper.as_slice()), layers, first)
        }
    }
}
