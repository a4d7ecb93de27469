// What instructions do: the manual's sample operations and examples, the flags after them, and the string instructions.
use super::bench::{plain, trial, zeros};
use registers::bank::{Flags, Register};
use std::process::Abort;
use std::test::*;

const O: bool = false;

const I: bool = true;

// A program that halts, one register after it, and the flags then: Carry, Zero, Sign, Parity.
#[derive(Clone, Copy)]
struct Sample {
    name: &'static str,
    program: &'static [u8],
    register: Register,
    value: u8,
    flags: [bool; 4],
}

// The flags in a list, so that a row of the table has them in one line.
fn listed(flags: Flags) -> [bool; 4] {
    [flags.carry, flags.zero, flags.sign, flags.parity]
}

// A loop over rows of its own, as in the other tables of programs: what a row is compared with differs.
fn check_samples<R: Abort + AllocGlobal>(rt: &R, rows: &[Sample]) -> Result<(), Fail> {
    let mut bytes = zeros(rt)?;
    let mut board = plain(&mut bytes);
    for row in rows {
        let seen = trial(&mut board, row.program, 1000)?;
        let bank = seen.state.processor.bank();
        assert_eq!(rt;
            (seen.run.stop.number(), bank.get(row.register)),
            (2, row.value),
            "{}",
            row.name
        );
        assert_eq!(rt; listed(bank.flags), row.flags, "{}", row.name);
    }
    Ok(())
}

// The samples that are printed bit by bit, after SU 1, which sets Carry and Sign: a logical operation clears Carry.
#[test]
fn logical_samples(rt: HostRuntime) -> Result<(), Fail> {
    check_samples(
        &rt,
        &[
            Sample {
                name: "ND",
                program: &[0o024, 1, 0o006, 0b0000_1111, 0o044, 0b0110_0110, 0o000],
                register: Register::A,
                value: 0b0000_0110,
                flags: [O, O, O, O],
            },
            Sample {
                name: "OR",
                program: &[0o024, 1, 0o006, 0b0000_1111, 0o064, 0b0110_0110, 0o000],
                register: Register::A,
                value: 0b0110_1111,
                flags: [O, O, O, O],
            },
            Sample {
                name: "XR",
                program: &[0o024, 1, 0o006, 0b0011_0101, 0o054, 0b0101_1100, 0o000],
                register: Register::A,
                value: 0b0110_1001,
                flags: [O, O, O, O],
            },
            // an odd number of ones sets Parity, bit 7 sets Sign, no bit sets Zero
            Sample {
                name: "ND, odd",
                program: &[0o006, 0b0000_1111, 0o044, 0b0110_0100, 0o000],
                register: Register::A,
                value: 0b0000_0100,
                flags: [O, O, O, I],
            },
            Sample {
                name: "OR, sign",
                program: &[0o006, 0b1000_0000, 0o064, 0b0110_0000, 0o000],
                register: Register::A,
                value: 0b1110_0000,
                flags: [O, O, I, I],
            },
            Sample {
                name: "XRA",
                program: &[0o006, 0b0110_0110, 0o250, 0o000],
                register: Register::A,
                value: 0,
                flags: [O, I, O, O],
            },
        ],
    )
}

// Sums, differences and comparisons on A. SU 1 comes first where the carry is to be set: A is 255 then.
#[test]
fn sums_and_differences(rt: HostRuntime) -> Result<(), Fail> {
    check_samples(
        &rt,
        &[
            Sample {
                name: "AD 1",
                program: &[0o004, 1, 0o000],
                register: Register::A,
                value: 1,
                flags: [O, O, O, I],
            },
            Sample {
                name: "AD 3",
                program: &[0o004, 3, 0o000],
                register: Register::A,
                value: 3,
                flags: [O, O, O, O],
            },
            Sample {
                name: "AD, overflow",
                program: &[0o006, 255, 0o004, 1, 0o000],
                register: Register::A,
                value: 0,
                flags: [I, I, O, O],
            },
            Sample {
                name: "AD leaves the carry out",
                program: &[0o024, 1, 0o006, 5, 0o004, 3, 0o000],
                register: Register::A,
                value: 8,
                flags: [O, O, O, I],
            },
            Sample {
                name: "AC, carry",
                program: &[0o024, 1, 0o006, 5, 0o014, 3, 0o000],
                register: Register::A,
                value: 9,
                flags: [O, O, O, O],
            },
            Sample {
                name: "AC, carry and overflow",
                program: &[0o024, 1, 0o014, 255, 0o000],
                register: Register::A,
                value: 255,
                flags: [I, O, I, O],
            },
            Sample {
                name: "SU, underflow",
                program: &[0o024, 1, 0o000],
                register: Register::A,
                value: 255,
                flags: [I, O, I, O],
            },
            Sample {
                name: "SU, equal",
                program: &[0o006, 5, 0o024, 5, 0o000],
                register: Register::A,
                value: 0,
                flags: [O, I, O, O],
            },
            Sample {
                name: "SU leaves the borrow out",
                program: &[0o024, 1, 0o006, 5, 0o024, 5, 0o000],
                register: Register::A,
                value: 0,
                flags: [O, I, O, O],
            },
            Sample {
                name: "SB, borrow",
                program: &[0o024, 1, 0o034, 254, 0o000],
                register: Register::A,
                value: 0,
                flags: [O, I, O, O],
            },
            Sample {
                name: "SB, underflow by the borrow",
                program: &[0o024, 1, 0o006, 5, 0o034, 5, 0o000],
                register: Register::A,
                value: 255,
                flags: [I, O, I, O],
            },
            Sample {
                name: "SB, 256 below",
                program: &[0o024, 1, 0o006, 0, 0o034, 255, 0o000],
                register: Register::A,
                value: 0,
                flags: [I, I, O, O],
            },
            // the flags of 254, and A as it was
            Sample {
                name: "CP, less",
                program: &[0o006, 5, 0o074, 7, 0o000],
                register: Register::A,
                value: 5,
                flags: [I, O, I, I],
            },
            Sample {
                name: "CP, equal",
                program: &[0o006, 5, 0o074, 5, 0o000],
                register: Register::A,
                value: 5,
                flags: [O, I, O, O],
            },
            Sample {
                name: "CPB leaves B",
                program: &[0o006, 5, 0o016, 7, 0o271, 0o000],
                register: Register::B,
                value: 7,
                flags: [I, O, I, I],
            },
            Sample {
                name: "CP 5 on B leaves it",
                program: &[0o016, 5, 0o111, 0o074, 5, 0o000],
                register: Register::B,
                value: 5,
                flags: [O, I, O, O],
            },
            // from memory: the byte at HL
            Sample {
                name: "ADM",
                program: &[0o066, 6, 0o006, 20, 0o207, 0o000, 50],
                register: Register::A,
                value: 70,
                flags: [O, O, O, I],
            },
            Sample {
                name: "SUM",
                program: &[0o066, 1, 0o006, 20, 0o227, 0o000],
                register: Register::A,
                value: 19,
                flags: [O, O, O, I],
            },
        ],
    )
}

// The examples of operations on other registers than A.
#[test]
fn other_registers(rt: HostRuntime) -> Result<(), Fail> {
    check_samples(
        &rt,
        &[
            Sample {
                name: "ADAB",
                program: &[0o006, 7, 0o016, 5, 0o111, 0o200, 0o000],
                register: Register::B,
                value: 12,
                flags: [O, O, O, O],
            },
            Sample {
                name: "ADAB leaves A",
                program: &[0o006, 7, 0o016, 5, 0o111, 0o200, 0o000],
                register: Register::A,
                value: 7,
                flags: [O, O, O, O],
            },
            Sample {
                name: "ADMC",
                program: &[0o066, 7, 0o026, 20, 0o062, 0o207, 0o000, 169],
                register: Register::C,
                value: 189,
                flags: [O, O, I, O],
            },
            Sample {
                name: "SUC 20",
                program: &[0o026, 5, 0o062, 0o024, 20, 0o000],
                register: Register::C,
                value: 241,
                flags: [I, O, I, I],
            },
            Sample {
                name: "SUC 20, no underflow",
                program: &[0o026, 30, 0o062, 0o024, 20, 0o000],
                register: Register::C,
                value: 10,
                flags: [O, O, O, O],
            },
            Sample {
                name: "ADX 1",
                program: &[0o076, 5, 0o022, 0o004, 1, 0o000],
                register: Register::X,
                value: 6,
                flags: [O, O, O, O],
            },
            Sample {
                name: "SRCB",
                program: &[0o016, 3, 0o111, 0o012, 0o000],
                register: Register::B,
                value: 129,
                flags: [I, O, O, O],
            },
            // a shift changes Carry alone: Sign is still that of SU 1
            Sample {
                name: "SRCB, even",
                program: &[0o024, 1, 0o016, 2, 0o111, 0o012, 0o000],
                register: Register::B,
                value: 1,
                flags: [O, O, I, O],
            },
            Sample {
                name: "SLCD",
                program: &[0o036, 129, 0o113, 0o002, 0o000],
                register: Register::D,
                value: 3,
                flags: [I, O, O, O],
            },
            Sample {
                name: "SLCD, low",
                program: &[0o024, 1, 0o036, 1, 0o113, 0o002, 0o000],
                register: Register::D,
                value: 2,
                flags: [O, O, I, O],
            },
            Sample {
                name: "SLC",
                program: &[0o006, 129, 0o002, 0o000],
                register: Register::A,
                value: 3,
                flags: [I, O, O, O],
            },
            Sample {
                name: "SRC",
                program: &[0o006, 129, 0o012, 0o000],
                register: Register::A,
                value: 192,
                flags: [I, O, O, O],
            },
            // SRE: the carry goes in at bit 7, and bit 0 goes out into it
            Sample {
                name: "SRE, carry in",
                program: &[0o024, 1, 0o006, 2, 0o032, 0o000],
                register: Register::A,
                value: 129,
                flags: [O, O, I, O],
            },
            Sample {
                name: "SRE, carry out",
                program: &[0o006, 1, 0o032, 0o000],
                register: Register::A,
                value: 0,
                flags: [I, O, O, O],
            },
            Sample {
                name: "SRE, bit 6",
                program: &[0o006, 64, 0o032, 0o000],
                register: Register::A,
                value: 32,
                flags: [O, O, O, O],
            },
            Sample {
                name: "SREH",
                program: &[0o056, 3, 0o115, 0o032, 0o000],
                register: Register::H,
                value: 1,
                flags: [I, O, O, O],
            },
        ],
    )
}

// Loads and stores by pairs, the stack, and the two banks.
#[test]
fn pairs_stack_and_banks(rt: HostRuntime) -> Result<(), Fail> {
    check_samples(
        &rt,
        &[
            Sample {
                name: "LEM BC",
                program: &[0o026, 5, 0o062, 0o347, 0o000, 85],
                register: Register::E,
                value: 85,
                flags: [O, O, O, O],
            },
            Sample {
                name: "LEM DE",
                program: &[0o046, 5, 0o174, 0o347, 0o000, 86],
                register: Register::E,
                value: 86,
                flags: [O, O, O, O],
            },
            Sample {
                name: "LEM XA",
                program: &[0o006, 5, 0o022, 0o347, 0o000, 87],
                register: Register::E,
                value: 87,
                flags: [O, O, O, O],
            },
            // X is the high byte: 1 * 256 + 0, where nothing was loaded
            Sample {
                name: "LEM XA, high",
                program: &[0o046, 9, 0o076, 1, 0o022, 0o347, 0o000],
                register: Register::E,
                value: 0,
                flags: [O, O, O, O],
            },
            // stored at 64 by DE, and read back by HL
            Sample {
                name: "LMB DE",
                program: &[0o016, 83, 0o046, 64, 0o174, 0o371, 0o066, 64, 0o307, 0o000],
                register: Register::A,
                value: 83,
                flags: [O, O, O, O],
            },
            Sample {
                name: "LMA",
                program: &[0o006, 83, 0o066, 64, 0o370, 0o327, 0o000],
                register: Register::C,
                value: 83,
                flags: [O, O, O, O],
            },
            Sample {
                name: "LDA",
                program: &[0o006, 83, 0o330, 0o000],
                register: Register::D,
                value: 83,
                flags: [O, O, O, O],
            },
            // the address of a PUSH is low byte first
            Sample {
                name: "PUSH loc, POP BC, high",
                program: &[0o051, 52, 18, 0o062, 0o060, 0o000],
                register: Register::B,
                value: 18,
                flags: [O, O, O, O],
            },
            Sample {
                name: "PUSH loc, POP BC, low",
                program: &[0o051, 52, 18, 0o062, 0o060, 0o000],
                register: Register::C,
                value: 52,
                flags: [O, O, O, O],
            },
            Sample {
                name: "PUSH, POP XA",
                program: &[0o056, 1, 0o066, 2, 0o070, 0o022, 0o060, 0o000],
                register: Register::X,
                value: 1,
                flags: [O, O, O, O],
            },
            Sample {
                name: "PUSH DE, POP",
                program: &[0o036, 3, 0o046, 4, 0o174, 0o070, 0o060, 0o000],
                register: Register::L,
                value: 4,
                flags: [O, O, O, O],
            },
            // CALL 6 comes back to 3 with what LA 7 put into A; LB 9 at 3 follows
            Sample {
                name: "CALL and RET",
                program: &[0o106, 6, 0, 0o016, 9, 0o000, 0o006, 7, 0o007],
                register: Register::B,
                value: 9,
                flags: [O, O, O, O],
            },
            // A of Alpha is 1, A of Beta 2, and each bank has flags of its own
            Sample {
                name: "BETA",
                program: &[0o024, 255, 0o020, 0o006, 2, 0o000],
                register: Register::A,
                value: 2,
                flags: [O, O, O, O],
            },
            Sample {
                name: "ALPHA",
                program: &[0o024, 255, 0o020, 0o006, 2, 0o030, 0o000],
                register: Register::A,
                value: 1,
                flags: [I, O, O, I],
            },
        ],
    )
}

// Block and field instructions: data stands behind the program, from 16 on.
#[test]
fn strings(rt: HostRuntime) -> Result<(), Fail> {
    check_samples(
        &rt,
        &[
            // BT of 2 from 16 to 32 with A 1: 8 and 5; A and B stay, and the flags are those of 5 + 0
            Sample {
                name: "BT, last byte",
                program: &[
                    0o066, 16, 0o046, 32, 0o026, 2, 0o006, 1, 0o021, 0o066, 33, 0o307, 0o000, 0, 0,
                    0, 7, 4,
                ],
                register: Register::A,
                value: 5,
                flags: [O, O, O, O],
            },
            Sample {
                name: "BT, E",
                program: &[
                    0o066, 16, 0o046, 32, 0o026, 2, 0o006, 1, 0o021, 0o000, 0, 0, 0, 0, 0, 0, 7, 4,
                ],
                register: Register::E,
                value: 34,
                flags: [O, O, O, O],
            },
            Sample {
                name: "BT, C",
                program: &[
                    0o066, 16, 0o046, 32, 0o026, 2, 0o006, 1, 0o021, 0o000, 0, 0, 0, 0, 0, 0, 7, 4,
                ],
                register: Register::C,
                value: 0,
                flags: [O, O, O, O],
            },
            // the end is marked by 7: B is 249, and 7 + 249 sets Carry and Zero
            Sample {
                name: "BT, match",
                program: &[
                    0o066, 16, 0o046, 32, 0o026, 9, 0o016, 249, 0o021, 0o000, 0, 0, 0, 0, 0, 0, 3,
                    7, 4,
                ],
                register: Register::C,
                value: 8,
                flags: [I, I, O, O],
            },
            Sample {
                name: "BT, past the match",
                program: &[
                    0o066, 16, 0o046, 32, 0o026, 9, 0o016, 249, 0o021, 0o000, 0, 0, 0, 0, 0, 0, 3,
                    7, 4,
                ],
                register: Register::L,
                value: 18,
                flags: [I, I, O, O],
            },
            // BTR of 2 from 17 to 33, downward
            Sample {
                name: "BTR, first byte",
                program: &[
                    0o066, 17, 0o046, 33, 0o026, 2, 0o111, 0o021, 0o066, 32, 0o307, 0o000, 0, 0, 0,
                    0, 7, 4,
                ],
                register: Register::A,
                value: 7,
                flags: [O, O, O, I],
            },
            Sample {
                name: "BTR, L",
                program: &[
                    0o066, 17, 0o046, 33, 0o026, 2, 0o111, 0o021, 0o000, 0, 0, 0, 0, 0, 0, 0, 7, 4,
                ],
                register: Register::L,
                value: 15,
                flags: [O, O, O, I],
            },
            // BCV of 1, 3 at 16 by the table at 20: 11, 13; A is 3 + 20, HL stays
            Sample {
                name: "BCV, A",
                program: &[
                    0o066, 20, 0o046, 16, 0o026, 2, 0o062, 0o021, 0o000, 0, 0, 0, 0, 0, 0, 0, 1, 3,
                    0, 0, 10, 11, 12, 13,
                ],
                register: Register::A,
                value: 23,
                flags: [O, O, O, I],
            },
            Sample {
                name: "BCV, L",
                program: &[
                    0o066, 20, 0o046, 16, 0o026, 2, 0o062, 0o021, 0o000, 0, 0, 0, 0, 0, 0, 0, 1, 3,
                    0, 0, 10, 11, 12, 13,
                ],
                register: Register::L,
                value: 20,
                flags: [O, O, O, I],
            },
            Sample {
                name: "BCV, first byte",
                program: &[
                    0o066, 20, 0o046, 16, 0o026, 2, 0o062, 0o021, 0o066, 16, 0o307, 0o000, 0, 0, 0,
                    0, 1, 3, 0, 0, 10, 11, 12, 13,
                ],
                register: Register::A,
                value: 11,
                flags: [O, O, O, I],
            },
            // BFAC of 2: 0, 255 at 16 added to 1, 1 at 18 makes 2, 0
            Sample {
                name: "BFAC, left byte",
                program: &[
                    0o066, 17, 0o046, 19, 0o026, 2, 0o011, 0o066, 18, 0o307, 0o000, 0, 0, 0, 0, 0,
                    0, 255, 1, 1,
                ],
                register: Register::A,
                value: 2,
                flags: [O, O, O, I],
            },
            Sample {
                name: "BFAC, E",
                program: &[
                    0o066, 17, 0o046, 19, 0o026, 2, 0o011, 0o000, 0, 0, 0, 0, 0, 0, 0, 0, 0, 255,
                    1, 1,
                ],
                register: Register::E,
                value: 17,
                flags: [O, O, O, I],
            },
            Sample {
                name: "BFAC, C",
                program: &[
                    0o066, 17, 0o046, 19, 0o026, 2, 0o011, 0o000, 0, 0, 0, 0, 0, 0, 0, 0, 0, 255,
                    1, 1,
                ],
                register: Register::C,
                value: 2,
                flags: [O, O, O, I],
            },
            // with the carry of SU 1: 1 more
            Sample {
                name: "BFAC, carry in",
                program: &[
                    0o024, 1, 0o066, 17, 0o046, 19, 0o026, 1, 0o011, 0o066, 19, 0o307, 0o000, 0, 0,
                    0, 0, 6, 0, 1,
                ],
                register: Register::A,
                value: 8,
                flags: [O, O, O, I],
            },
            // BFSB of 2: 1, 1 at 18 less 0, 255 at 16 makes 0, 2
            Sample {
                name: "BFSB, right byte",
                program: &[
                    0o066, 17, 0o046, 19, 0o026, 2, 0o031, 0o066, 19, 0o307, 0o000, 0, 0, 0, 0, 0,
                    0, 255, 1, 1,
                ],
                register: Register::A,
                value: 2,
                flags: [O, I, O, O],
            },
            // 0 less 1 borrows
            Sample {
                name: "BFSB, borrow out",
                program: &[
                    0o066, 17, 0o046, 19, 0o026, 1, 0o031, 0o066, 19, 0o307, 0o000, 0, 0, 0, 0, 0,
                    0, 1, 0, 0,
                ],
                register: Register::A,
                value: 255,
                flags: [I, O, I, O],
            },
        ],
    )
}

// Seventeen pushes of 1 to 17 and sixteen pops: 2 is the last, since 17 took the place of 1. One more pop gives 17 again.
#[test]
fn the_stack_wraps(rt: HostRuntime) -> Result<(), Fail> {
    check_samples(
        &rt,
        &[
            Sample {
                name: "16 pops",
                program: &[
                    0o051, 1, 0, 0o051, 2, 0, 0o051, 3, 0, 0o051, 4, 0, 0o051, 5, 0, 0o051, 6, 0,
                    0o051, 7, 0, 0o051, 8, 0, 0o051, 9, 0, 0o051, 10, 0, 0o051, 11, 0, 0o051, 12,
                    0, 0o051, 13, 0, 0o051, 14, 0, 0o051, 15, 0, 0o051, 16, 0, 0o051, 17, 0, 0o060,
                    0o060, 0o060, 0o060, 0o060, 0o060, 0o060, 0o060, 0o060, 0o060, 0o060, 0o060,
                    0o060, 0o060, 0o060, 0o060, 0o000,
                ],
                register: Register::L,
                value: 2,
                flags: [O, O, O, O],
            },
            Sample {
                name: "17 pops",
                program: &[
                    0o051, 1, 0, 0o051, 2, 0, 0o051, 3, 0, 0o051, 4, 0, 0o051, 5, 0, 0o051, 6, 0,
                    0o051, 7, 0, 0o051, 8, 0, 0o051, 9, 0, 0o051, 10, 0, 0o051, 11, 0, 0o051, 12,
                    0, 0o051, 13, 0, 0o051, 14, 0, 0o051, 15, 0, 0o051, 16, 0, 0o051, 17, 0, 0o060,
                    0o060, 0o060, 0o060, 0o060, 0o060, 0o060, 0o060, 0o060, 0o060, 0o060, 0o060,
                    0o060, 0o060, 0o060, 0o060, 0o060, 0o000,
                ],
                register: Register::L,
                value: 17,
                flags: [O, O, O, O],
            },
        ],
    )
}
