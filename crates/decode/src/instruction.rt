// The instructions that are carried.
use alu::{Operation, Shift};
use registers::bank::{Condition, Pair, Register};

// What a selecting byte selects: any register but A.
#[derive(Clone, Copy)]
pub enum Selector {
    B,
    C,
    D,
    E,
    H,
    L,
    X,
}

// Where an operation has its operand.
#[derive(Clone, Copy)]
pub enum Source {
    Register(Register),
    // the byte at HL
    Memory,
    // the byte after the op code
    Immediate,
}

// An instruction with its mnemonic.
#[derive(Clone, Copy)]
pub enum Instruction {
    // HALT
    Halt,
    // L(r)
    LoadImmediate(Register),
    // L(rd)(rs), NOP among them: the destination and the source
    Load(Register, Register),
    // L(rd)M: the destination and the address
    LoadFromMemory(Register, Pair),
    // LM(rs): the source and the address
    StoreToMemory(Register, Pair),
    // AD AC SU SB ND XR OR CP
    Operate(Operation, Source, Register),
    // SLC SRC SRE
    Shift(Shift, Register),
    // JMP
    Jump,
    // JT JF
    JumpIf(Condition),
    // CALL
    Call,
    // CT CF
    CallIf(Condition),
    // RET
    Return,
    // RT RF
    ReturnIf(Condition),
    // PUSH
    Push(Pair),
    // PUSH loc
    PushImmediate,
    // POP
    Pop(Pair),
    // EI
    EnableInterrupts,
    // DI
    DisableInterrupts,
    // ALPHA
    SelectAlpha,
    // BETA
    SelectBeta,
    // BT
    BlockTransfer,
    // BTR
    BlockTransferReverse,
    // BCV
    BlockConvert,
    // BFAC
    FieldAdd,
    // BFSB
    FieldSubtract,
    // SC
    CallSystem,
    // BP
    Break,
}
