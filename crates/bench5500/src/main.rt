// bench5500: how fast the engine runs. Times go to standard error, and checksums, which are always the same, to standard output.
#![tactic(auto)]

use boards::single::Filling;
use console::questions::hash;
use desk::desk::Desk;
use layers::rom::RomLayer;
use layers::seal::SealLayer;
use memory::Memory;
use memory::page::Page;
use memory::sets::PageSet;
use refusal::Refusal;
use std::time::Instant;

// A loop of loads, stores, arithmetic, a call with jumps in it, and a block move.
const PROGRAM: [u8; 77] = [
    0o056, 0o004, // LH 004      HL is a counter, at 002000
    0o066, 0o000, // LL 000
    0o307, //        LAM
    0o004, 0o007, // AD 007
    0o370, //        LMA
    0o310, //        LBA
    0o062, 0o004, 0o001, // ADC 001
    0o106, 0o100, 0o000, // CALL 000100
    0o036, 0o006, // LD 006      DE is 003000
    0o046, 0o000, // LE 000
    0o056, 0o005, // LH 005      HL is 002400
    0o066, 0o000, // LL 000
    0o006, 0o001, // LA 001      each byte one more,
    0o016, 0o000, // LB 000      none ends it,
    0o026, 0o020, // LC 020      sixteen bytes
    0o021, //        BT
    0o056, 0o006, // LH 006      and back, one more again
    0o036, 0o005, // LD 005
    0o066, 0o000, // LL 000
    0o046, 0o000, // LE 000
    0o026, 0o020, // LC 020
    0o021, //        BT
    0o104, 0o000, 0o000, // JMP 000000
    0, 0, 0, 0, 0, 0, 0, 0, 0, 0, // up to 000100
    0, 0, 0, 0, 0, 0, 0, 0, 0, 0, 0o203, //        ADD
    0o251, //        XRB
    0o340, //        LEA
    0o002, //        SLC
    0o150, 0o112, 0o000, // JTZ 000112
    0o324, //        LCE
    0o222, //        SUC
    0o242, //        NDC
    0o300, //        LAA, at 000112
    0o012, //        SRC
    0o007, //        RET
];

// Sector 0 of job j is page j.
fn table_of(job: u8) -> [u8; 15] {
    let mut table = [0; 15];
    table[0] = (job % 8) * 16 + 12;
    table
}

// Nanoseconds in hundredths, for each of so many.
fn hundredths(nanos: u128, count: u64) -> u128 {
    nanos.saturating_mul(100) / u128::from(count.max(1))
}

// A desk at work over a memory that is lent to it.
struct Bench<'m, M> {
    desk: Desk,
    memory: &'m mut M,
}

impl<'m, M: Memory> Bench<'m, M> {
    fn over(memory: &'m mut M) -> Bench<'m, M> {
        Bench {
            desk: Desk::new(),
            memory,
        }
    }

    // Opens so many jobs with the program.
    fn start(&mut self, jobs: u8) -> Result<(), Refusal> {
        for job in 0..jobs {
            self.desk.open(self.memory, job, table_of(job), 0)?;
            self.desk.load(self.memory, job, 0, &PROGRAM)?;
        }
        Ok(())
    }

    // Runs each in turn so many times, a turn being 65,535 steps. Says how many steps that were.
    fn run(&mut self, jobs: u8, turns: u32) -> Result<u64, Refusal> {
        let mut steps: u64 = 0;
        for _ in 0..turns {
            for job in 0..jobs {
                let ran = self.desk.run(self.memory, job, 65535)?;
                steps = steps.wrapping_add(u64::from(ran.steps));
            }
        }
        Ok(steps)
    }

    // A desk cannot be dropped.
    fn end(self) {
        let Bench { desk, memory: _ } = self;
        desk.finish();
    }
}

// A measurement: so many jobs with the program, which run in turn so many times.
struct Measurement<'a> {
    name: &'a str,
    jobs: u8,
    turns: u32,
}

impl Measurement<'_> {
    // Prints the steps and the memory's hash, and what one step took.
    fn tell(&self, rt: &HostRuntime, steps: u64, sum: u64, nanos: u128) -> anyhow::Result<()> {
        let name = self.name;
        println!(rt; "{name} steps {steps} hash {sum}")?;
        let each = hundredths(nanos, steps);
        eprintln!(rt; "{name}: {}.{:02} ns", each / 100, each % 100)?;
        Ok(())
    }

    fn tell_refused(&self, rt: &HostRuntime, refusal: Refusal) -> anyhow::Result<()> {
        println!(rt; "{} {refusal}", self.name)?;
        Ok(())
    }

    // Starts and runs the jobs, and takes the time of the runs alone.
    fn measure<M: Memory>(&self, rt: &HostRuntime, bench: &mut Bench<M>) -> anyhow::Result<()> {
        if let Err(refusal) = bench.start(self.jobs) {
            return self.tell_refused(rt, refusal);
        }
        let begun = Instant::now(rt)?;
        let ran = bench.run(self.jobs, self.turns);
        let nanos = begun.elapsed(rt)?.as_nanos();
        match ran {
            Ok(steps) => self.tell(rt, steps, hash(bench.memory), nanos),
            Err(refusal) => self.tell_refused(rt, refusal),
        }
    }

    // The measurement over a memory, at a desk of its own.
    fn over<M: Memory>(&self, rt: &HostRuntime, memory: &mut M) -> anyhow::Result<()> {
        let mut bench = Bench::over(memory);
        let result = self.measure(rt, &mut bench);
        bench.end();
        result
    }
}

const SINGLE: Measurement<'static> = Measurement {
    name: "single",
    jobs: 1,
    turns: 400,
};

const EIGHT: Measurement<'static> = Measurement {
    name: "eight",
    jobs: 8,
    turns: 50,
};

const PILE: Measurement<'static> = Measurement {
    name: "pile",
    jobs: 1,
    turns: 400,
};

fn main(rt: HostRuntime) -> anyhow::Result<()> {
    let mut bytes = vec![in rt.alloc(); 0u8; 65536]?;
    let mut board = Filling::new().seal(PageSet::none()).board(&mut bytes);
    SINGLE.over(&rt, &mut board)?;
    EIGHT.over(&rt, &mut board)?;
    let rom = vec![in rt.alloc(); 7u8; 4096]?;
    let mut pile = SealLayer::over(
        RomLayer::over(board, Page::of(61440), rom.as_slice()),
        PageSet::none(),
    );
    PILE.over(&rt, &mut pile)
}
