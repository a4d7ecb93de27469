// The time of each form of each instruction, in nanoseconds.
use super::bench::{plain, trial, zeros};
use std::process::Abort;
use std::test::*;

// A program that ends with HALT, which takes no time, and what all of it takes.
#[derive(Clone, Copy)]
struct Timed {
    name: &'static str,
    program: &'static [u8],
    time: u64,
}

// A loop over rows of its own, as in the other tables of programs: what a row is compared with differs.
fn check_times<R: Abort + AllocGlobal>(rt: &R, rows: &[Timed]) -> Result<(), Fail> {
    let mut bytes = zeros(rt)?;
    let mut board = plain(&mut bytes);
    for row in rows {
        let seen = trial(&mut board, row.program, 1000)?;
        assert_eq!(rt;
            (seen.run.stop.number(), seen.run.time, seen.state.time),
            (2, row.time, row.time),
            "{}",
            row.name
        );
    }
    Ok(())
}

// The eight operations on A: immediate, from a register, from memory.
#[test]
fn operations_on_a(rt: HostRuntime) -> Result<(), Fail> {
    check_times(
        &rt,
        &[
            Timed {
                name: "AD 1",
                program: &[0o004, 1, 0o000],
                time: 2200,
            },
            Timed {
                name: "AC 1",
                program: &[0o014, 1, 0o000],
                time: 2200,
            },
            Timed {
                name: "SU 1",
                program: &[0o024, 1, 0o000],
                time: 2000,
            },
            Timed {
                name: "SB 1",
                program: &[0o034, 1, 0o000],
                time: 2200,
            },
            Timed {
                name: "ND 1",
                program: &[0o044, 1, 0o000],
                time: 2200,
            },
            Timed {
                name: "XR 1",
                program: &[0o054, 1, 0o000],
                time: 2000,
            },
            Timed {
                name: "OR 1",
                program: &[0o064, 1, 0o000],
                time: 2000,
            },
            Timed {
                name: "CP 1",
                program: &[0o074, 1, 0o000],
                time: 1800,
            },
            Timed {
                name: "ADB",
                program: &[0o201, 0o000],
                time: 1400,
            },
            Timed {
                name: "ACB",
                program: &[0o211, 0o000],
                time: 1400,
            },
            Timed {
                name: "SUB",
                program: &[0o221, 0o000],
                time: 1400,
            },
            Timed {
                name: "SBB",
                program: &[0o231, 0o000],
                time: 1400,
            },
            Timed {
                name: "NDB",
                program: &[0o241, 0o000],
                time: 1400,
            },
            Timed {
                name: "XRB",
                program: &[0o251, 0o000],
                time: 1400,
            },
            Timed {
                name: "ORB",
                program: &[0o261, 0o000],
                time: 1400,
            },
            Timed {
                name: "CPB",
                program: &[0o271, 0o000],
                time: 1200,
            },
            Timed {
                name: "ADM",
                program: &[0o207, 0o000],
                time: 2600,
            },
            Timed {
                name: "ACM",
                program: &[0o217, 0o000],
                time: 2600,
            },
            Timed {
                name: "SUM",
                program: &[0o227, 0o000],
                time: 2600,
            },
            Timed {
                name: "SBM",
                program: &[0o237, 0o000],
                time: 2600,
            },
            Timed {
                name: "NDM",
                program: &[0o247, 0o000],
                time: 2600,
            },
            Timed {
                name: "XRM",
                program: &[0o257, 0o000],
                time: 2600,
            },
            Timed {
                name: "ORM",
                program: &[0o267, 0o000],
                time: 2600,
            },
            Timed {
                name: "CPM",
                program: &[0o277, 0o000],
                time: 2400,
            },
        ],
    )
}

// The same on other registers: 1,000 more for the selecting byte.
#[test]
fn operations_on_others(rt: HostRuntime) -> Result<(), Fail> {
    check_times(
        &rt,
        &[
            Timed {
                name: "ADB 1",
                program: &[0o111, 0o004, 1, 0o000],
                time: 3200,
            },
            Timed {
                name: "ACC 1",
                program: &[0o062, 0o014, 1, 0o000],
                time: 3200,
            },
            Timed {
                name: "SUD 1",
                program: &[0o113, 0o024, 1, 0o000],
                time: 3000,
            },
            Timed {
                name: "SBE 1",
                program: &[0o174, 0o034, 1, 0o000],
                time: 3200,
            },
            Timed {
                name: "NDH 1",
                program: &[0o115, 0o044, 1, 0o000],
                time: 3200,
            },
            Timed {
                name: "XRL 1",
                program: &[0o176, 0o054, 1, 0o000],
                time: 3000,
            },
            Timed {
                name: "ORX 1",
                program: &[0o022, 0o064, 1, 0o000],
                time: 3000,
            },
            Timed {
                name: "CPB 1",
                program: &[0o111, 0o074, 1, 0o000],
                time: 2800,
            },
            Timed {
                name: "ADAC",
                program: &[0o062, 0o200, 0o000],
                time: 2400,
            },
            Timed {
                name: "ACAD",
                program: &[0o113, 0o210, 0o000],
                time: 2400,
            },
            Timed {
                name: "SUAE",
                program: &[0o174, 0o220, 0o000],
                time: 2400,
            },
            Timed {
                name: "SBAH",
                program: &[0o115, 0o230, 0o000],
                time: 2400,
            },
            Timed {
                name: "NDAL",
                program: &[0o176, 0o240, 0o000],
                time: 2400,
            },
            Timed {
                name: "XRAX",
                program: &[0o022, 0o250, 0o000],
                time: 2400,
            },
            Timed {
                name: "ORAB",
                program: &[0o111, 0o260, 0o000],
                time: 2400,
            },
            Timed {
                name: "CPAC",
                program: &[0o062, 0o270, 0o000],
                time: 2200,
            },
            Timed {
                name: "ADMD",
                program: &[0o113, 0o207, 0o000],
                time: 3600,
            },
            Timed {
                name: "ACME",
                program: &[0o174, 0o217, 0o000],
                time: 3600,
            },
            Timed {
                name: "SUMH",
                program: &[0o115, 0o227, 0o000],
                time: 3600,
            },
            Timed {
                name: "SBML",
                program: &[0o176, 0o237, 0o000],
                time: 3600,
            },
            Timed {
                name: "NDMX",
                program: &[0o022, 0o247, 0o000],
                time: 3600,
            },
            Timed {
                name: "XRMB",
                program: &[0o111, 0o257, 0o000],
                time: 3600,
            },
            Timed {
                name: "ORMC",
                program: &[0o062, 0o267, 0o000],
                time: 3600,
            },
            Timed {
                name: "CPMD",
                program: &[0o113, 0o277, 0o000],
                time: 3400,
            },
        ],
    )
}

// Loads and stores, by HL and by the other pairs.
#[test]
fn loads_and_stores(rt: HostRuntime) -> Result<(), Fail> {
    check_times(
        &rt,
        &[
            Timed {
                name: "LA 9",
                program: &[0o006, 9, 0o000],
                time: 1800,
            },
            Timed {
                name: "LB 9",
                program: &[0o016, 9, 0o000],
                time: 1800,
            },
            Timed {
                name: "LC 9",
                program: &[0o026, 9, 0o000],
                time: 1800,
            },
            Timed {
                name: "LD 9",
                program: &[0o036, 9, 0o000],
                time: 1800,
            },
            Timed {
                name: "LE 9",
                program: &[0o046, 9, 0o000],
                time: 1800,
            },
            Timed {
                name: "LH 9",
                program: &[0o056, 9, 0o000],
                time: 1800,
            },
            Timed {
                name: "LL 9",
                program: &[0o066, 9, 0o000],
                time: 1800,
            },
            Timed {
                name: "LX 9",
                program: &[0o076, 9, 0o000],
                time: 1800,
            },
            Timed {
                name: "NOP",
                program: &[0o300, 0o000],
                time: 1200,
            },
            Timed {
                name: "LBA",
                program: &[0o310, 0o000],
                time: 1200,
            },
            Timed {
                name: "LLH",
                program: &[0o365, 0o000],
                time: 1200,
            },
            Timed {
                name: "LAL",
                program: &[0o306, 0o000],
                time: 1200,
            },
            Timed {
                name: "LAM",
                program: &[0o307, 0o000],
                time: 2600,
            },
            Timed {
                name: "LLM",
                program: &[0o367, 0o000],
                time: 2600,
            },
            Timed {
                name: "LMA",
                program: &[0o370, 0o000],
                time: 2600,
            },
            Timed {
                name: "LML",
                program: &[0o376, 0o000],
                time: 2600,
            },
            Timed {
                name: "LEM BC",
                program: &[0o062, 0o347, 0o000],
                time: 3400,
            },
            Timed {
                name: "LMB BC",
                program: &[0o062, 0o371, 0o000],
                time: 3400,
            },
            Timed {
                name: "LEM DE",
                program: &[0o174, 0o347, 0o000],
                time: 3400,
            },
            Timed {
                name: "LMB DE",
                program: &[0o174, 0o371, 0o000],
                time: 3400,
            },
            Timed {
                name: "LEM XA",
                program: &[0o022, 0o347, 0o000],
                time: 3400,
            },
            Timed {
                name: "LMB XA",
                program: &[0o022, 0o371, 0o000],
                time: 3400,
            },
        ],
    )
}

// Jumps. SU 1 takes 2,000 and sets Carry and Sign; AD 0 and AD 1 take 2,200 and set Zero and Parity.
#[test]
fn jumps(rt: HostRuntime) -> Result<(), Fail> {
    check_times(
        &rt,
        &[
            Timed {
                name: "JMP",
                program: &[0o104, 3, 0, 0o000],
                time: 2800,
            },
            Timed {
                name: "JFC taken",
                program: &[0o100, 3, 0, 0o000],
                time: 2800,
            },
            Timed {
                name: "JTC not taken",
                program: &[0o140, 0, 0, 0o000],
                time: 1400,
            },
            Timed {
                name: "JFC not taken",
                program: &[0o024, 1, 0o100, 0, 0, 0o000],
                time: 3400,
            },
            Timed {
                name: "JTC taken",
                program: &[0o024, 1, 0o140, 5, 0, 0o000],
                time: 4800,
            },
            Timed {
                name: "JFZ taken",
                program: &[0o110, 3, 0, 0o000],
                time: 2800,
            },
            Timed {
                name: "JTZ not taken",
                program: &[0o150, 0, 0, 0o000],
                time: 1400,
            },
            Timed {
                name: "JFZ not taken",
                program: &[0o004, 0, 0o110, 0, 0, 0o000],
                time: 3600,
            },
            Timed {
                name: "JTZ taken",
                program: &[0o004, 0, 0o150, 5, 0, 0o000],
                time: 5000,
            },
            Timed {
                name: "JFS taken",
                program: &[0o120, 3, 0, 0o000],
                time: 2800,
            },
            Timed {
                name: "JTS not taken",
                program: &[0o160, 0, 0, 0o000],
                time: 1400,
            },
            Timed {
                name: "JFS not taken",
                program: &[0o024, 1, 0o120, 0, 0, 0o000],
                time: 3400,
            },
            Timed {
                name: "JTS taken",
                program: &[0o024, 1, 0o160, 5, 0, 0o000],
                time: 4800,
            },
            Timed {
                name: "JFP taken",
                program: &[0o130, 3, 0, 0o000],
                time: 2800,
            },
            Timed {
                name: "JTP not taken",
                program: &[0o170, 0, 0, 0o000],
                time: 1400,
            },
            Timed {
                name: "JFP not taken",
                program: &[0o004, 1, 0o130, 0, 0, 0o000],
                time: 3600,
            },
            Timed {
                name: "JTP taken",
                program: &[0o004, 1, 0o170, 5, 0, 0o000],
                time: 5000,
            },
        ],
    )
}

// Calls, after the same settings of the flags.
#[test]
fn calls(rt: HostRuntime) -> Result<(), Fail> {
    check_times(
        &rt,
        &[
            Timed {
                name: "CALL",
                program: &[0o106, 3, 0, 0o000],
                time: 2800,
            },
            Timed {
                name: "CFC taken",
                program: &[0o102, 3, 0, 0o000],
                time: 3200,
            },
            Timed {
                name: "CTC not taken",
                program: &[0o142, 0, 0, 0o000],
                time: 1600,
            },
            Timed {
                name: "CFC not taken",
                program: &[0o024, 1, 0o102, 0, 0, 0o000],
                time: 3600,
            },
            Timed {
                name: "CTC taken",
                program: &[0o024, 1, 0o142, 5, 0, 0o000],
                time: 5200,
            },
            Timed {
                name: "CFZ taken",
                program: &[0o112, 3, 0, 0o000],
                time: 3200,
            },
            Timed {
                name: "CTZ not taken",
                program: &[0o152, 0, 0, 0o000],
                time: 1600,
            },
            Timed {
                name: "CFZ not taken",
                program: &[0o004, 0, 0o112, 0, 0, 0o000],
                time: 3800,
            },
            Timed {
                name: "CTZ taken",
                program: &[0o004, 0, 0o152, 5, 0, 0o000],
                time: 5400,
            },
            Timed {
                name: "CFS taken",
                program: &[0o122, 3, 0, 0o000],
                time: 3200,
            },
            Timed {
                name: "CTS not taken",
                program: &[0o162, 0, 0, 0o000],
                time: 1600,
            },
            Timed {
                name: "CFS not taken",
                program: &[0o024, 1, 0o122, 0, 0, 0o000],
                time: 3600,
            },
            Timed {
                name: "CTS taken",
                program: &[0o024, 1, 0o162, 5, 0, 0o000],
                time: 5200,
            },
            Timed {
                name: "CFP taken",
                program: &[0o132, 3, 0, 0o000],
                time: 3200,
            },
            Timed {
                name: "CTP not taken",
                program: &[0o172, 0, 0, 0o000],
                time: 1600,
            },
            Timed {
                name: "CFP not taken",
                program: &[0o004, 1, 0o132, 0, 0, 0o000],
                time: 3800,
            },
            Timed {
                name: "CTP taken",
                program: &[0o004, 1, 0o172, 5, 0, 0o000],
                time: 5400,
            },
        ],
    )
}

// Returns, after the same settings; one that is taken follows a CALL of 2,800.
#[test]
fn returns(rt: HostRuntime) -> Result<(), Fail> {
    check_times(
        &rt,
        &[
            Timed {
                name: "CALL, RET",
                program: &[0o106, 4, 0, 0o000, 0o007],
                time: 4600,
            },
            Timed {
                name: "CALL, RFC taken",
                program: &[0o106, 4, 0, 0o000, 0o003],
                time: 4800,
            },
            Timed {
                name: "RTC not taken",
                program: &[0o043, 0o000],
                time: 1000,
            },
            Timed {
                name: "RFC not taken",
                program: &[0o024, 1, 0o003, 0o000],
                time: 3000,
            },
            Timed {
                name: "CALL, RTC taken",
                program: &[0o024, 1, 0o106, 6, 0, 0o000, 0o043],
                time: 6800,
            },
            Timed {
                name: "CALL, RFZ taken",
                program: &[0o106, 4, 0, 0o000, 0o013],
                time: 4800,
            },
            Timed {
                name: "RTZ not taken",
                program: &[0o053, 0o000],
                time: 1000,
            },
            Timed {
                name: "RFZ not taken",
                program: &[0o004, 0, 0o013, 0o000],
                time: 3200,
            },
            Timed {
                name: "CALL, RTZ taken",
                program: &[0o004, 0, 0o106, 6, 0, 0o000, 0o053],
                time: 7000,
            },
            Timed {
                name: "CALL, RFS taken",
                program: &[0o106, 4, 0, 0o000, 0o023],
                time: 4800,
            },
            Timed {
                name: "RTS not taken",
                program: &[0o063, 0o000],
                time: 1000,
            },
            Timed {
                name: "RFS not taken",
                program: &[0o024, 1, 0o023, 0o000],
                time: 3000,
            },
            Timed {
                name: "CALL, RTS taken",
                program: &[0o024, 1, 0o106, 6, 0, 0o000, 0o063],
                time: 6800,
            },
            Timed {
                name: "CALL, RFP taken",
                program: &[0o106, 4, 0, 0o000, 0o033],
                time: 4800,
            },
            Timed {
                name: "RTP not taken",
                program: &[0o073, 0o000],
                time: 1000,
            },
            Timed {
                name: "RFP not taken",
                program: &[0o004, 1, 0o033, 0o000],
                time: 3200,
            },
            Timed {
                name: "CALL, RTP taken",
                program: &[0o004, 1, 0o106, 6, 0, 0o000, 0o073],
                time: 7000,
            },
        ],
    )
}

// The stack, the shifts, the interrupt flag, the modes, and HALT, which takes no time.
#[test]
fn stack_shifts_and_modes(rt: HostRuntime) -> Result<(), Fail> {
    check_times(
        &rt,
        &[
            Timed {
                name: "POP",
                program: &[0o060, 0o000],
                time: 2200,
            },
            Timed {
                name: "PUSH",
                program: &[0o070, 0o000],
                time: 1800,
            },
            Timed {
                name: "PUSH loc",
                program: &[0o051, 1, 2, 0o000],
                time: 2600,
            },
            Timed {
                name: "PUSH BC",
                program: &[0o062, 0o070, 0o000],
                time: 2600,
            },
            Timed {
                name: "POP BC",
                program: &[0o062, 0o060, 0o000],
                time: 3000,
            },
            Timed {
                name: "PUSH DE",
                program: &[0o174, 0o070, 0o000],
                time: 2600,
            },
            Timed {
                name: "POP DE",
                program: &[0o174, 0o060, 0o000],
                time: 3000,
            },
            Timed {
                name: "PUSH XA",
                program: &[0o022, 0o070, 0o000],
                time: 2600,
            },
            Timed {
                name: "POP XA",
                program: &[0o022, 0o060, 0o000],
                time: 3000,
            },
            Timed {
                name: "SLC",
                program: &[0o002, 0o000],
                time: 1400,
            },
            Timed {
                name: "SRC",
                program: &[0o012, 0o000],
                time: 1400,
            },
            Timed {
                name: "SRE",
                program: &[0o032, 0o000],
                time: 1400,
            },
            Timed {
                name: "SLCB",
                program: &[0o111, 0o002, 0o000],
                time: 2400,
            },
            Timed {
                name: "SLCE",
                program: &[0o174, 0o002, 0o000],
                time: 2400,
            },
            Timed {
                name: "SRCC",
                program: &[0o062, 0o012, 0o000],
                time: 2400,
            },
            Timed {
                name: "SRCH",
                program: &[0o115, 0o012, 0o000],
                time: 2400,
            },
            Timed {
                name: "SRED",
                program: &[0o113, 0o032, 0o000],
                time: 2400,
            },
            Timed {
                name: "SREX",
                program: &[0o022, 0o032, 0o000],
                time: 2400,
            },
            Timed {
                name: "EI",
                program: &[0o050, 0o000],
                time: 1400,
            },
            Timed {
                name: "DI",
                program: &[0o040, 0o000],
                time: 1400,
            },
            Timed {
                name: "ALPHA",
                program: &[0o030, 0o000],
                time: 1400,
            },
            Timed {
                name: "BETA",
                program: &[0o020, 0o000],
                time: 1400,
            },
            Timed {
                name: "HALT 000",
                program: &[0o000],
                time: 0,
            },
            Timed {
                name: "HALT 001",
                program: &[0o001],
                time: 0,
            },
            Timed {
                name: "HALT 377",
                program: &[0o377],
                time: 0,
            },
        ],
    )
}

// Block and field instructions, after loads of 1,800 each. A program moves, translates or adds its own bytes, which were already run.
#[test]
fn blocks_and_fields(rt: HostRuntime) -> Result<(), Fail> {
    check_times(
        &rt,
        &[
            Timed {
                name: "BT of 3",
                program: &[0o026, 3, 0o021, 0o000],
                time: 16200,
            },
            Timed {
                name: "BT of 256",
                program: &[0o021, 0o000],
                time: 824000,
            },
            Timed {
                name: "BT of 2, B not 0",
                program: &[0o016, 1, 0o026, 2, 0o021, 0o000],
                time: 15200,
            },
            Timed {
                name: "BT, match at the first",
                program: &[0o016, 242, 0o026, 2, 0o021, 0o000],
                time: 11000,
            },
            Timed {
                name: "BT, match at the second of 5",
                program: &[0o016, 128, 0o026, 5, 0o021, 0o000],
                time: 14400,
            },
            Timed {
                name: "BTR of 1",
                program: &[0o026, 1, 0o111, 0o021, 0o000],
                time: 11200,
            },
            Timed {
                name: "BTR of 3",
                program: &[0o066, 5, 0o046, 5, 0o026, 3, 0o111, 0o021, 0o000],
                time: 22000,
            },
            Timed {
                name: "BTR of 2, B not 0",
                program: &[0o016, 1, 0o066, 7, 0o046, 7, 0o026, 2, 0o111, 0o021, 0o000],
                time: 20600,
            },
            Timed {
                name: "BTR, match at the first",
                program: &[
                    0o016, 254, 0o066, 7, 0o046, 7, 0o026, 2, 0o111, 0o021, 0o000,
                ],
                time: 16000,
            },
            Timed {
                name: "BCV of 2",
                program: &[0o026, 2, 0o062, 0o021, 0o000],
                time: 17600,
            },
            Timed {
                name: "BCV of 2, B not 0",
                program: &[0o016, 1, 0o026, 2, 0o062, 0o021, 0o000],
                time: 19000,
            },
            Timed {
                name: "BCV, match at the first",
                program: &[
                    0o016, 255, 0o026, 2, 0o062, 0o021, 0o000, 0, 0, 0, 0, 0, 0, 0, 1,
                ],
                time: 13400,
            },
            Timed {
                name: "BFAC of 1",
                program: &[0o026, 1, 0o011, 0o000],
                time: 9600,
            },
            Timed {
                name: "BFAC of 3",
                program: &[0o066, 5, 0o046, 5, 0o026, 3, 0o011, 0o000],
                time: 18800,
            },
            Timed {
                name: "BFAC of 16 by C 0",
                program: &[0o066, 32, 0o046, 32, 0o011, 0o000],
                time: 53400,
            },
            Timed {
                name: "BFAC of 16 by C 16",
                program: &[0o066, 32, 0o046, 32, 0o026, 16, 0o011, 0o000],
                time: 55200,
            },
            Timed {
                name: "BFAC of 2 by C 18",
                program: &[0o066, 32, 0o046, 32, 0o026, 18, 0o011, 0o000],
                time: 16000,
            },
            Timed {
                name: "BFSB of 1",
                program: &[0o026, 1, 0o031, 0o000],
                time: 9600,
            },
            Timed {
                name: "BFSB of 15 by C 255",
                program: &[0o066, 32, 0o046, 32, 0o026, 255, 0o031, 0o000],
                time: 52400,
            },
            Timed {
                name: "BFSB of 16 by C 0",
                program: &[0o066, 32, 0o046, 32, 0o031, 0o000],
                time: 53400,
            },
        ],
    )
}
