// Each stop, with the steps, the time and P, and what it makes of the job.
use super::bench::{TABLE, at_desk, plain, trial, watch, zeros};
use model::job::Status;
use std::process::Abort;
use std::test::*;

// A program, and the run's stop, by the number that is printed, its steps and its time, with P after it.
#[derive(Clone, Copy)]
struct Stopped {
    name: &'static str,
    program: &'static [u8],
    limit: u16,
    stop: u8,
    steps: u16,
    time: u64,
    p: u16,
}

// Stop 3 makes a job waiting, 2 and 5 to 8 end it, 1 and 4 leave it ready: by the numbers, which are what is tested.
fn status_by(stop: u8) -> Status {
    match stop {
        1 | 4 => Status::Ready,
        3 => Status::Waiting,
        _ => Status::Ended,
    }
}

// A loop over rows of its own, as in the other tables of programs: what a row is compared with differs.
fn check_stops<R: Abort + AllocGlobal>(rt: &R, rows: &[Stopped]) -> Result<(), Fail> {
    let mut bytes = zeros(rt)?;
    let mut board = plain(&mut bytes);
    for row in rows {
        let seen = trial(&mut board, row.program, row.limit)?;
        assert_eq!(rt;
            (seen.run.stop.number(), seen.run.steps, seen.run.time),
            (row.stop, row.steps, row.time),
            "{}",
            row.name
        );
        assert_eq!(rt;
            (seen.state.steps, seen.state.time, seen.state.processor.p),
            (row.steps as u32, row.time, row.p),
            "{}",
            row.name
        );
        // a system call has a receipt with its number, and nothing else has one
        let owed = (row.stop == 3).then_some(1);
        assert_eq!(rt;
            (seen.state.status, seen.owed, seen.state.calls),
            (status_by(row.stop), owed, owed.unwrap_or(0)),
            "{}",
            row.name
        );
    }
    Ok(())
}

// The limit, HALT, SC and BP. One of these three that meets the limit exactly is its own stop.
#[test]
fn limits_and_traps(rt: HostRuntime) -> Result<(), Fail> {
    check_stops(
        &rt,
        &[
            Stopped {
                name: "limit",
                program: &[0o104, 0, 0],
                limit: 1000,
                stop: 1,
                steps: 1000,
                time: 2_800_000,
                p: 0,
            },
            Stopped {
                name: "limit 1",
                program: &[0o006, 1, 0o000],
                limit: 1,
                stop: 1,
                steps: 1,
                time: 1800,
                p: 2,
            },
            Stopped {
                name: "limit 0",
                program: &[0o101],
                limit: 0,
                stop: 1,
                steps: 0,
                time: 0,
                p: 0,
            },
            Stopped {
                name: "HALT 000",
                program: &[0o006, 1, 0o000],
                limit: 2,
                stop: 2,
                steps: 2,
                time: 1800,
                p: 3,
            },
            Stopped {
                name: "HALT 001",
                program: &[0o001],
                limit: 9,
                stop: 2,
                steps: 1,
                time: 0,
                p: 1,
            },
            Stopped {
                name: "HALT 377",
                program: &[0o377],
                limit: 9,
                stop: 2,
                steps: 1,
                time: 0,
                p: 1,
            },
            Stopped {
                name: "SC",
                program: &[0o006, 1, 0o067],
                limit: 9,
                stop: 3,
                steps: 2,
                time: 3600,
                p: 3,
            },
            Stopped {
                name: "SC at the limit",
                program: &[0o067],
                limit: 1,
                stop: 3,
                steps: 1,
                time: 1800,
                p: 1,
            },
            Stopped {
                name: "BP",
                program: &[0o006, 1, 0o052],
                limit: 9,
                stop: 4,
                steps: 2,
                time: 4000,
                p: 3,
            },
            Stopped {
                name: "BP at the limit",
                program: &[0o052],
                limit: 1,
                stop: 4,
                steps: 1,
                time: 2200,
                p: 1,
            },
        ],
    )
}

// Privileged instructions: INPUT, PIN, EX, and the loads of the base register and of the sector table. P is at the selecting byte, if there is one.
#[test]
fn privileged(rt: HostRuntime) -> Result<(), Fail> {
    check_stops(
        &rt,
        &[
            Stopped {
                name: "INPUT",
                program: &[0o006, 1, 0o101],
                limit: 9,
                stop: 5,
                steps: 1,
                time: 1800,
                p: 2,
            },
            Stopped {
                name: "INPUT to B",
                program: &[0o006, 1, 0o111, 0o101],
                limit: 9,
                stop: 5,
                steps: 1,
                time: 1800,
                p: 2,
            },
            Stopped {
                name: "PIN",
                program: &[0o103],
                limit: 9,
                stop: 5,
                steps: 0,
                time: 0,
                p: 0,
            },
            Stopped {
                name: "PIN to X",
                program: &[0o022, 0o103],
                limit: 9,
                stop: 5,
                steps: 0,
                time: 0,
                p: 0,
            },
            Stopped {
                name: "EX ADR",
                program: &[0o121],
                limit: 9,
                stop: 5,
                steps: 0,
                time: 0,
                p: 0,
            },
            Stopped {
                name: "EX, unassigned",
                program: &[0o145],
                limit: 9,
                stop: 5,
                steps: 0,
                time: 0,
                p: 0,
            },
            Stopped {
                name: "EX CLICK from L",
                program: &[0o176, 0o153],
                limit: 9,
                stop: 5,
                steps: 0,
                time: 0,
                p: 0,
            },
            Stopped {
                name: "base register",
                program: &[0o072],
                limit: 9,
                stop: 5,
                steps: 0,
                time: 0,
                p: 0,
            },
            Stopped {
                name: "base register from H",
                program: &[0o115, 0o072],
                limit: 9,
                stop: 5,
                steps: 0,
                time: 0,
                p: 0,
            },
            Stopped {
                name: "sector table",
                program: &[0o077],
                limit: 9,
                stop: 5,
                steps: 0,
                time: 0,
                p: 0,
            },
        ],
    )
}

// Sector 2 gives no access, and sector 1 may be read and not written.
#[test]
fn no_access_and_no_writing(rt: HostRuntime) -> Result<(), Fail> {
    check_stops(
        &rt,
        &[
            Stopped {
                name: "fetch",
                program: &[0o104, 0, 32],
                limit: 9,
                stop: 6,
                steps: 1,
                time: 2800,
                p: 8192,
            },
            Stopped {
                name: "load",
                program: &[0o056, 32, 0o307],
                limit: 9,
                stop: 6,
                steps: 1,
                time: 1800,
                p: 2,
            },
            Stopped {
                name: "store",
                program: &[0o056, 32, 0o370],
                limit: 9,
                stop: 6,
                steps: 1,
                time: 1800,
                p: 2,
            },
            Stopped {
                name: "sector 15",
                program: &[0o056, 240, 0o307],
                limit: 9,
                stop: 6,
                steps: 1,
                time: 1800,
                p: 2,
            },
            Stopped {
                name: "load by DE",
                program: &[0o036, 32, 0o174, 0o307],
                limit: 9,
                stop: 6,
                steps: 1,
                time: 1800,
                p: 2,
            },
            Stopped {
                name: "load from sector 1",
                program: &[0o056, 16, 0o307, 0o000],
                limit: 9,
                stop: 2,
                steps: 3,
                time: 4400,
                p: 4,
            },
            Stopped {
                name: "store to sector 1",
                program: &[0o056, 16, 0o370],
                limit: 9,
                stop: 7,
                steps: 1,
                time: 1800,
                p: 2,
            },
            Stopped {
                name: "BT to sector 1",
                program: &[0o036, 16, 0o021],
                limit: 9,
                stop: 7,
                steps: 1,
                time: 1800,
                p: 2,
            },
            Stopped {
                name: "BFAC on sector 1",
                program: &[0o036, 16, 0o011],
                limit: 9,
                stop: 7,
                steps: 1,
                time: 1800,
                p: 2,
            },
            // HL moves down from 0 to 65,535, which is in sector 15
            Stopped {
                name: "BTR below 0",
                program: &[0o111, 0o021],
                limit: 9,
                stop: 6,
                steps: 0,
                time: 0,
                p: 0,
            },
        ],
    )
}

// Codes that are not carried, alone or after a selecting byte.
#[test]
fn not_carried(rt: HostRuntime) -> Result<(), Fail> {
    check_stops(
        &rt,
        &[
            Stopped {
                name: "005",
                program: &[0o006, 1, 0o005],
                limit: 9,
                stop: 8,
                steps: 1,
                time: 1800,
                p: 2,
            },
            Stopped {
                name: "NOP JUMP",
                program: &[0o045, 0, 0],
                limit: 9,
                stop: 8,
                steps: 0,
                time: 0,
                p: 0,
            },
            Stopped {
                name: "BCP",
                program: &[0o041],
                limit: 9,
                stop: 8,
                steps: 0,
                time: 0,
                p: 0,
            },
            Stopped {
                name: "EX 155",
                program: &[0o155],
                limit: 9,
                stop: 8,
                steps: 0,
                time: 0,
                p: 0,
            },
            Stopped {
                name: "117 selects nothing",
                program: &[0o117, 0o004, 1],
                limit: 9,
                stop: 8,
                steps: 0,
                time: 0,
                p: 0,
            },
            Stopped {
                name: "two selecting bytes",
                program: &[0o111, 0o062, 0o004, 1],
                limit: 9,
                stop: 8,
                steps: 0,
                time: 0,
                p: 0,
            },
            Stopped {
                name: "EJMP",
                program: &[0o111, 0o050, 0, 0],
                limit: 9,
                stop: 8,
                steps: 0,
                time: 0,
                p: 0,
            },
            Stopped {
                name: "RET after B",
                program: &[0o111, 0o007],
                limit: 9,
                stop: 8,
                steps: 0,
                time: 0,
                p: 0,
            },
            Stopped {
                name: "SC after C",
                program: &[0o062, 0o067],
                limit: 9,
                stop: 8,
                steps: 0,
                time: 0,
                p: 0,
            },
            Stopped {
                name: "sector table after D",
                program: &[0o113, 0o077],
                limit: 9,
                stop: 8,
                steps: 0,
                time: 0,
                p: 0,
            },
            Stopped {
                name: "HALT after C",
                program: &[0o062, 0o377],
                limit: 9,
                stop: 8,
                steps: 0,
                time: 0,
                p: 0,
            },
            Stopped {
                name: "HALT after B",
                program: &[0o111, 0o000],
                limit: 9,
                stop: 8,
                steps: 0,
                time: 0,
                p: 0,
            },
            Stopped {
                name: "LAM after B, which is no pair",
                program: &[0o111, 0o307],
                limit: 9,
                stop: 8,
                steps: 0,
                time: 0,
                p: 0,
            },
            Stopped {
                name: "PUSH after H",
                program: &[0o115, 0o070],
                limit: 9,
                stop: 8,
                steps: 0,
                time: 0,
                p: 0,
            },
            Stopped {
                name: "LBA after C",
                program: &[0o062, 0o310],
                limit: 9,
                stop: 8,
                steps: 0,
                time: 0,
                p: 0,
            },
            Stopped {
                name: "LB after C",
                program: &[0o062, 0o016, 1],
                limit: 9,
                stop: 8,
                steps: 0,
                time: 0,
                p: 0,
            },
            Stopped {
                name: "JMP after E",
                program: &[0o174, 0o104, 0, 0],
                limit: 9,
                stop: 8,
                steps: 0,
                time: 0,
                p: 0,
            },
            Stopped {
                name: "BT after D",
                program: &[0o113, 0o021],
                limit: 9,
                stop: 8,
                steps: 0,
                time: 0,
                p: 0,
            },
            Stopped {
                name: "BFAC after B",
                program: &[0o111, 0o011],
                limit: 9,
                stop: 8,
                steps: 0,
                time: 0,
                p: 0,
            },
        ],
    )
}

// At the end of sector 1: a selecting byte, a jump and a load whose next byte has no access are stop 6, and a code that is not carried is stop 8 before it.
#[test]
fn at_the_edge(rt: HostRuntime) -> Result<(), Fail> {
    let mut bytes = zeros(&rt)?;
    let mut board = plain(&mut bytes);
    for (op, stop) in [
        (0o111u8, 6u8),
        (0o104, 6),
        (0o140, 6),
        (0o006, 6),
        (0o117, 8),
        (0o101, 5),
        (0o005, 8),
    ] {
        let seen = at_desk(|desk| {
            desk.open(&mut board, 0, TABLE, 8191)?;
            desk.load(&mut board, 0, 8191, &[op])?;
            watch(desk, &mut board, 9)
        })?;
        assert_eq!(rt;
            (
                seen.run.stop.number(),
                seen.run.steps,
                seen.state.processor.p,
            ),
            (stop, 0, 8191)
        );
    }
    Ok(())
}

// A job that stopped at its limit or at a breakpoint goes on where it was, and its sums go on.
#[test]
fn going_on(rt: HostRuntime) -> Result<(), Fail> {
    let mut bytes = zeros(&rt)?;
    let mut board = plain(&mut bytes);
    at_desk(|desk| {
        desk.open(&mut board, 0, TABLE, 0)?;
        desk.load(&mut board, 0, 0, &[0o006, 5, 0o052, 0o004, 3, 0o000])?;
        let first = watch(desk, &mut board, 1)?;
        let second = watch(desk, &mut board, 9)?;
        let third = watch(desk, &mut board, 9)?;
        assert_eq!(rt;
            [
                first.run.stop.number(),
                second.run.stop.number(),
                third.run.stop.number(),
            ],
            [1, 4, 2]
        );
        assert_eq!(rt;
            (
                third.run.steps,
                third.run.time,
                third.state.processor.bank().a,
            ),
            (2, 2200, 8)
        );
        assert_eq!(rt; (third.state.steps, third.state.time), (4, 6200));
        Ok(())
    })
}
