// What each instruction does once its bytes are fetched.
ghost use Rattle.std.specs.Prelude.{◌≡◌, Some, None};
ghost use Rattle.processor.specs.Effects.{plain, taken, effect, loaded, operated_by, turned, source_in, called_to, returned, pushed_on, popped_into, moved_by, field_by, effect_of};

use alu::{Operation, Shift, operate, shifted};
use block::fields::{run_field, width_of};
use block::transfers::{Block, run_block};
use decode::instruction::{Instruction, Source};
use registers::bank::{Bank, Pair, Register};
use registers::processor::{Mode, Processor};
use space::Space;
use stop::{Fault, Trap};
use times::Course;

// An instruction that was carried out: what its time depends on, and how it ends the run, if it does.
#[derive(Clone, Copy)]
pub struct Carried {
    pub course: Course,
    pub trap: Option<Trap>,
}

impl Carried {
    // The run goes on.
    fn on(course: Course) -> Carried
        ensures { result ≡ record { course = course; trap = None } }
    {
        Carried { course, trap: None }
    }

    // The run ends.
    fn ending(trap: Trap) -> Carried
        ensures { result ≡ record { course = plain; trap = Some trap } }
    {
        Carried {
            course: Course::default(),
            trap: Some(trap),
        }
    }
}

fn plainly() -> Carried
    ensures { result ≡ record { course = plain; trap = None } }
{
    Carried::on(Course::default())
}

fn taking() -> Carried
    ensures { result ≡ record { course = taken; trap = None } }
{
    Carried::on(Course {
        taken: true,
        ..Course::default()
    })
}

fn load(cpu: &mut Processor, r: Register, v: u8)
    ensures { cpu.new ≡ loaded cpu.old r v }
{
    cpu.bank_mut().put(r, v);
}

fn operate_on(cpu: &mut Processor, op: Operation, r: Register, v: u8)
    ensures { cpu.new ≡ operated_by cpu.old op r v }
{
    let bank = cpu.bank_mut();
    let outcome = operate(op, bank.get(r), v, bank.flags.carry);
    bank.put(r, outcome.byte);
    bank.flags = outcome.flags;
}

fn shift(cpu: &mut Processor, s: Shift, r: Register)
    ensures { cpu.new ≡ turned cpu.old s r }
{
    let bank = cpu.bank_mut();
    let (byte, carry) = shifted(s, bank.get(r), bank.flags.carry);
    bank.put(r, byte);
    bank.flags.carry = carry;
}

// The operand of an operation.
fn source_in<S: Space>(space: &S, bank: &Bank, source: Source, operand: u16) -> Result<u8, Fault>
    ensures { result ≡ source_in source (S.cells space.now) bank.now operand }
{
    match source {
        Source::Register(r) => Ok(bank.get(r)),
        Source::Memory => space.read(bank.pair(Pair::HL)),
        Source::Immediate => Ok((operand % 256) as u8),
    }
}

fn call_to(cpu: &mut Processor, to: u16)
    ensures { cpu.new ≡ called_to cpu.old to }
{
    let back = cpu.p;
    cpu.stack.push(back);
    cpu.p = to;
}

fn return_back(cpu: &mut Processor)
    ensures { cpu.new ≡ returned cpu.old }
{
    let back = cpu.stack.pop();
    cpu.p = back;
}

fn push_value(cpu: &mut Processor, v: u16)
    ensures { cpu.new ≡ pushed_on cpu.old v }
{
    cpu.stack.push(v);
}

fn pop_into(cpu: &mut Processor, pair: Pair)
    ensures { cpu.new ≡ popped_into cpu.old pair }
{
    let v = cpu.stack.pop();
    cpu.bank_mut().put_pair(pair, v);
}

// BT, BTR and BCV. The bank stands as after the elements done, whether all were or not.
fn move_block<S: Space>(cpu: &mut Processor, space: &mut S, kind: Block) -> Result<Carried, Fault>
    ensures all { effect result cpu.new (S.cells space.new) ≡ moved_by kind cpu.old (S.cells space.old) }
    ensures kept { S.frame space.new ≡ S.frame space.old }
{
    let lent = cpu.bank_mut();
    // The elements work on a copy, which the compiler keeps in registers: in place each of them would go through memory.
    let mut bank = *lent;
    let unmarked = bank.b == 0;
    let moved = run_block(kind, &mut bank, space);
    *lent = bank;
    let moved = moved?;
    Ok(Carried::on(Course {
        taken: false,
        elements: moved.elements,
        matched: moved.matched,
        unmarked,
    }))
}

// BFAC and BFSB.
fn work_field<S: Space>(cpu: &mut Processor, space: &mut S, op: Operation) -> Result<Carried, Fault>
    ensures all { effect result cpu.new (S.cells space.new) ≡ field_by op cpu.old (S.cells space.old) }
    ensures kept { S.frame space.new ≡ S.frame space.old }
{
    let lent = cpu.bank_mut();
    let mut bank = *lent;
    let elements = width_of(bank.c) as u16;
    let worked = run_field(op, &mut bank, space);
    *lent = bank;
    worked?;
    Ok(Carried::on(Course {
        elements,
        ..Course::default()
    }))
}

// The effect of an instruction. P is after it.
pub(crate) fn execute<S: Space>(
    cpu: &mut Processor,
    space: &mut S,
    i: Instruction,
    operand: u16,
) -> Result<Carried, Fault>
    ensures all { effect result cpu.new (S.cells space.new) ≡ effect_of i operand cpu.old (S.cells space.old) }
    ensures kept { S.frame space.new ≡ S.frame space.old }
{
    let bank = cpu.bank();
    match i {
        Instruction::Halt => Ok(Carried::ending(Trap::Halt)),
        Instruction::CallSystem => Ok(Carried::ending(Trap::SystemCall)),
        Instruction::Break => Ok(Carried::ending(Trap::Breakpoint)),
        Instruction::LoadImmediate(r) => {
            load(cpu, r, (operand % 256) as u8);
            Ok(plainly())
        }
        Instruction::Load(to, from) => {
            load(cpu, to, bank.get(from));
            Ok(plainly())
        }
        Instruction::LoadFromMemory(r, pair) => {
            let v = space.read(bank.pair(pair))?;
            load(cpu, r, v);
            Ok(plainly())
        }
        Instruction::StoreToMemory(r, pair) => {
            space.write(bank.pair(pair), bank.get(r))?;
            Ok(plainly())
        }
        Instruction::Operate(op, source, r) => {
            let v = source_in(space, &bank, source, operand)?;
            operate_on(cpu, op, r, v);
            Ok(plainly())
        }
        Instruction::Shift(s, r) => {
            shift(cpu, s, r);
            Ok(plainly())
        }
        Instruction::Jump => {
            cpu.p = operand;
            Ok(plainly())
        }
        Instruction::JumpIf(condition) if condition.holds(bank.flags) => {
            cpu.p = operand;
            Ok(taking())
        }
        Instruction::Call => {
            call_to(cpu, operand);
            Ok(plainly())
        }
        Instruction::CallIf(condition) if condition.holds(bank.flags) => {
            call_to(cpu, operand);
            Ok(taking())
        }
        Instruction::Return => {
            return_back(cpu);
            Ok(plainly())
        }
        Instruction::ReturnIf(condition) if condition.holds(bank.flags) => {
            return_back(cpu);
            Ok(taking())
        }
        Instruction::JumpIf(_) | Instruction::CallIf(_) | Instruction::ReturnIf(_) => {
            Ok(plainly())
        }
        Instruction::Push(pair) => {
            push_value(cpu, bank.pair(pair));
            Ok(plainly())
        }
        Instruction::PushImmediate => {
            push_value(cpu, operand);
            Ok(plainly())
        }
        Instruction::Pop(pair) => {
            pop_into(cpu, pair);
            Ok(plainly())
        }
        Instruction::EnableInterrupts => {
            cpu.interrupts = true;
            Ok(plainly())
        }
        Instruction::DisableInterrupts => {
            cpu.interrupts = false;
            Ok(plainly())
        }
        Instruction::SelectAlpha => {
            cpu.mode = Mode::Alpha;
            Ok(plainly())
        }
        Instruction::SelectBeta => {
            cpu.mode = Mode::Beta;
            Ok(plainly())
        }
        Instruction::BlockTransfer => move_block(cpu, space, Block::Forward),
        Instruction::BlockTransferReverse => move_block(cpu, space, Block::Backward),
        Instruction::BlockConvert => move_block(cpu, space, Block::Convert),
        Instruction::FieldAdd => work_field(cpu, space, Operation::AddCarry),
        Instruction::FieldSubtract => work_field(cpu, space, Operation::SubtractBorrow),
    }
}
