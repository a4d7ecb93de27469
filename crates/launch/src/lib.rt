// An image from the file to the figure: what run5500 does. Engine and memory stay two parameters, since the memory is lent at each call.
#![tactic(auto)]

ghost use Rattle.std.specs.Prelude.{◌≡◌, ℕ, true, Some};
ghost use Rattle.memory.specs.Memories.{Mem};
ghost use Rattle.registers.specs.Processors.{bank_of};
ghost use Rattle.image.specs.Parts.{left};
ghost use Rattle.model.specs.Jobs.{is_open};
ghost use Rattle.model.specs.Worlds.{world_of, jobs_of};
ghost use Rattle.engine.specs.Answers.{owed_of};
ghost use Rattle.engine.specs.Receipts.{Acceptable};
ghost use Rattle.launch.specs.Lines.{line_of, told_line};
ghost use Rattle.launch.specs.Launches.{loaded_by, loads_all, settled_by, launch_of};

use engine::jobs::Engine;
use engine::receipt::{Outcome, Receipt};
use image::{Blocks, Image};
use memory::Memory;
use refusal::Refusal;
use runs::Ran;
use std::fmt;
use stop::Stop;

// How many steps an image may take.
const LIMIT: u16 = 65535;

// What is told of a run: the stop, the steps, and A of the bank in use.
#[derive(Clone, Copy)]
pub struct Figure {
    pub stop: Stop,
    pub steps: u16,
    pub a: u8,
}

// As `stop 2 steps 3 a 8`.
impl fmt::Display for Figure {
    ghost output = { λ f. Some (line_of f) };

    fn fmt<W: fmt::Write>(&self, f: &mut fmt::Formatter<W>) -> fmt::Result {
        let Figure { stop, steps, a } = *self;
        write!(f, "stop {} steps {steps} a {a}", stop.number())
    }
}

// What a launch comes to: a struct, so that it can be printed as a `Result` cannot.
#[derive(Clone, Copy)]
pub struct Told {
    pub answer: Result<Figure, Refusal>,
}

// The line of the figure, or of the refusal.
impl fmt::Display for Told {
    ghost output = { λ t. Some (told_line t.answer) };

    fn fmt<W: fmt::Write>(&self, f: &mut fmt::Formatter<W>) -> fmt::Result {
        match self.answer {
            Ok(figure) => write!(f, "{figure}"),
            Err(refusal) => write!(f, "{refusal}"),
        }
    }
}

// Loads the blocks into job 0 in their order; the first refusal ends it.
fn load_all<M: Memory>(engine: &Engine, memory: &mut M, blocks: Blocks) -> Result<(), Refusal>
    ensures { loaded_by result (world_of engine.now.jobs (M.mem memory.new)) ≡ loads_all (left blocks.entry) (world_of engine.now.jobs (M.mem memory.old)) }
{
    for block in blocks {
        engine.load(memory, 0, block.address, block.bytes)?;
    }
    Ok(())
}

fn figure_of(run: Ran, a: u8) -> Figure
    ensures { result ≡ record { stop = run.stop; steps = run.steps; a = a } }
{
    Figure {
        stop: run.stop,
        steps: run.steps,
        a,
    }
}

// A of the bank in use of job 0, which is open.
fn accumulator(engine: &Engine) -> u8
    requires { is_open (jobs_of engine.now.jobs 0).status ≡ true }
    ensures { result ≡ (bank_of (jobs_of engine.now.jobs 0).processor).a }
{
    let state = engine.state_of(0).unwrap();
    state.processor.bank().a
}

// Abandons what is owed, which is accepted. An engine, and no desk, which would keep the receipt: a desk cannot be dropped where a `?` ends the launch.
// Crates of tests have such a function of their own: it requires that the engine accepts the receipt, which neither of them holds by its type,
// and no public function of a library requires anything.
fn abandon_owed(engine: &mut Engine, receipt: Option<Receipt>)
    requires { Acceptable (owed_of receipt) (jobs_of engine.old.jobs) }
    ensures { (m : Mem) → world_of engine.new.jobs m ≡ settled_by (owed_of receipt) (world_of engine.old.jobs m) }
{
    if let Some(owed) = receipt {
        engine.abandon(owed).unwrap();
    }
}

// The figure of an image, or the first refusal: of the file, of the opening, of a block, of the run.
pub fn launch<M: Memory>(file: &[u8], memory: &mut M) -> Result<Figure, Refusal>
    ensures answer { result ≡ (launch_of file.now (M.mem memory.old)).answer }
    ensures after { M.mem memory.new ≡ (launch_of file.now (M.mem memory.old)).world.mem }
{
    let image = Image::read(file)?;
    let mut engine = Engine::new();
    engine.open(memory, 0, image.table(), image.start())?;
    load_all(&engine, memory, image.blocks())?;
    let Outcome { run, receipt } = engine.run(memory, 0, LIMIT)?;
    let figure = figure_of(run, accumulator(&engine));
    abandon_owed(&mut engine, receipt);
    Ok(figure)
}
