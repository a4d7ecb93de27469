// How long an instruction takes, apart from what it does.
#![tactic(auto)]

ghost use Rattle.std.specs.Prelude.{◌≡◌, ℕ, ◌<◌, ◌≤◌};
ghost use Rattle.times.specs.Times.{operate_time_of, block_time_of, time_of};

use alu::Operation;
use decode::instruction::{Instruction, Source};
use registers::bank::{Pair, Register};

// What happened in an instruction that its time depends on.
#[derive(Clone, Copy, Default)]
pub struct Course {
    // a conditional jump, call or return was taken
    pub taken: bool,
    // how many elements a block or field instruction did
    pub elements: u16,
    // a block instruction ended with a match
    pub matched: bool,
    // B was 0, so that nothing marks the end of a block
    pub unmarked: bool,
}

fn operate_time(op: Operation, source: Source) -> u32
    ensures { result ≡ operate_time_of op source }
{
    match (op, source) {
        (Operation::Compare, Source::Immediate) => 1800,
        (Operation::Compare, Source::Memory) => 2400,
        (Operation::Compare, Source::Register(_)) => 1200,
        (Operation::Subtract | Operation::ExclusiveOr | Operation::Or, Source::Immediate) => 2000,
        (_, Source::Immediate) => 2200,
        (_, Source::Memory) => 2600,
        (_, Source::Register(_)) => 1400,
    }
}

// A block instruction: 200 more for each element if `longer`, and 800 less after a match.
fn block_time(start: u32, each: u32, longer: bool, course: Course) -> u32
    requires { (800 ≤ start) × ((start < 10000) × (each < 5000)) }
    ensures { result ≡ block_time_of start each longer course }
{
    let each = if longer { each + 200 } else { each };
    let all = start + course.elements as u32 * each;
    if course.matched { all - 800 } else { all }
}

// The nanoseconds of an instruction that went as its course says.
pub fn time_of(i: Instruction, course: Course) -> u32
    ensures { result ≡ time_of i course }
{
    match i {
        Instruction::Halt => 0,
        Instruction::LoadImmediate(_) => 1800,
        Instruction::Load(_, _) => 1200,
        Instruction::LoadFromMemory(_, Pair::HL) | Instruction::StoreToMemory(_, Pair::HL) => 2600,
        Instruction::LoadFromMemory(_, _) | Instruction::StoreToMemory(_, _) => 3400,
        Instruction::Operate(op, source, Register::A) => operate_time(op, source),
        Instruction::Operate(op, source, _) => operate_time(op, source) + 1000,
        Instruction::Shift(_, Register::A) => 1400,
        Instruction::Shift(_, _) => 2400,
        Instruction::Jump => 2800,
        Instruction::JumpIf(_) if course.taken => 2800,
        Instruction::JumpIf(_) => 1400,
        Instruction::Call => 2800,
        Instruction::CallIf(_) if course.taken => 3200,
        Instruction::CallIf(_) => 1600,
        Instruction::Return => 1800,
        Instruction::ReturnIf(_) if course.taken => 2000,
        Instruction::ReturnIf(_) => 1000,
        Instruction::Push(Pair::HL) => 1800,
        Instruction::Push(_) => 2600,
        Instruction::PushImmediate => 2600,
        Instruction::Pop(Pair::HL) => 2200,
        Instruction::Pop(_) => 3000,
        Instruction::EnableInterrupts
        | Instruction::DisableInterrupts
        | Instruction::SelectAlpha
        | Instruction::SelectBeta => 1400,
        Instruction::BlockTransfer => block_time(4800, 3200, !course.unmarked, course),
        Instruction::BlockTransferReverse => block_time(5800, 3600, !course.unmarked, course),
        Instruction::BlockConvert => block_time(5800, 4800, course.unmarked, course),
        Instruction::FieldAdd | Instruction::FieldSubtract => 5000 + 2800 * course.elements as u32,
        Instruction::CallSystem => 1800,
        Instruction::Break => 2200,
    }
}
