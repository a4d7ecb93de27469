// Whole images, from the file to what run5500 tells of them.
use super::bench::{check_answer, plain, zeros};
use launch::launch;
use memory::Memory;
use std::process::Abort;
use std::test::*;

// The bytes of examples/freight.img, whose listing is examples/freight.lst.
const FREIGHT: [u8; 201] = [
    0o104, 0o120, 0o112, 0o000, 0o001, 0o074, 0o124, 0o000, 0o000, 0o000, 0o000, 0o000, 0o000,
    0o000, 0o000, 0o000, 0o000, 0o000, 0o000, 0o000, 0o000, 0o000, 0o000, 0o000, 0o000, 0o136,
    0o036, 0o001, 0o046, 0o000, 0o174, 0o307, 0o074, 0o377, 0o150, 0o120, 0o000, 0o310, 0o174,
    0o004, 0o001, 0o174, 0o327, 0o174, 0o004, 0o001, 0o174, 0o070, 0o056, 0o020, 0o066, 0o000,
    0o307, 0o272, 0o100, 0o045, 0o000, 0o176, 0o004, 0o001, 0o104, 0o032, 0o000, 0o306, 0o002,
    0o206, 0o004, 0o020, 0o111, 0o024, 0o001, 0o140, 0o065, 0o000, 0o004, 0o014, 0o104, 0o052,
    0o000, 0o360, 0o036, 0o001, 0o046, 0o200, 0o006, 0o000, 0o016, 0o000, 0o026, 0o003, 0o021,
    0o056, 0o001, 0o066, 0o202, 0o046, 0o212, 0o026, 0o003, 0o240, 0o011, 0o174, 0o060, 0o104,
    0o004, 0o000, 0o056, 0o001, 0o066, 0o210, 0o307, 0o176, 0o004, 0o001, 0o207, 0o176, 0o004,
    0o001, 0o207, 0o000, 0o001, 0o000, 0o000, 0o011, 0o001, 0o033, 0o003, 0o074, 0o002, 0o062,
    0o000, 0o003, 0o377, 0o020, 0o000, 0o000, 0o100, 0o012, 0o031, 0o062, 0o377, 0o000, 0o000,
    0o000, 0o000, 0o000, 0o000, 0o000, 0o000, 0o000, 0o000, 0o000, 0o000, 0o000, 0o001, 0o302,
    0o000, 0o002, 0o320, 0o000, 0o004, 0o246, 0o000, 0o007, 0o274, 0o000, 0o004, 0o342, 0o000,
    0o011, 0o260, 0o000, 0o021, 0o046, 0o000, 0o037, 0o270, 0o000, 0o016, 0o133, 0o000, 0o037,
    0o004, 0o000, 0o072, 0o002, 0o000, 0o164, 0o314, 0o000, 0o111, 0o324, 0o000, 0o241, 0o042,
    0o001, 0o131, 0o120, 0o002, 0o257, 0o200,
];

// Four parcels: 4,390, 176,000, 14,850 and 450 cents make 195,690, which is 2, 252, 106 in three bytes, and these make 360, which is 104 modulo 256.
// A parcel takes 34 steps, 5 for each weight that is too small and 4 for each zone: 48, 61, 52 and 34 steps here, and 13 at the start and the end.
#[test]
fn freight(rt: HostRuntime) -> Result<(), Fail> {
    let mut bytes = zeros(&rt)?;
    let mut board = plain(&mut bytes);
    let figure = launch(&FREIGHT, &mut board)?;
    assert_eq!(rt;
        (figure.stop.number(), figure.steps, figure.a),
        (2, 208, 104)
    );
    // the total lies at 0o610 of page 3
    assert_eq!(rt;
        [
            board.read(12288 + 0o610),
            board.read(12288 + 0o611),
            board.read(12288 + 0o612),
        ],
        [2, 252, 106]
    );
    Ok(())
}

// An image, and its stop, steps and A: the stop by its number, which is what is tested.
#[derive(Clone, Copy)]
struct Told {
    name: &'static str,
    file: &'static [u8],
    stop: u8,
    steps: u16,
    a: u8,
}

// An image, and how it is refused.
#[derive(Clone, Copy)]
struct Refused {
    name: &'static str,
    file: &'static [u8],
    refused: (u8, u32),
}

fn check_images<R: Abort + AllocGlobal>(
    rt: &R,
    told: &[Told],
    refused: &[Refused],
) -> Result<(), Fail> {
    let mut bytes = zeros(rt)?;
    let mut board = plain(&mut bytes);
    for row in told {
        let figure = launch(row.file, &mut board)?;
        assert_eq!(rt;
            (figure.stop.number(), figure.steps, figure.a),
            (row.stop, row.steps, row.a),
            "{}",
            row.name
        );
    }
    for row in refused {
        let answer = launch(row.file, &mut board);
        check_answer(rt, row.name, answer, Some(row.refused));
    }
    Ok(())
}

// Each has sector 0 in page 3, for writing, and sector 1 in page 5, for reading.
#[test]
fn small_images(rt: HostRuntime) -> Result<(), Fail> {
    check_images(
        &rt,
        &[
            Told {
                name: "LA 5, AD 3, HALT",
                file: b"DPJ\0\x01\x3c\x54\0\0\0\0\0\0\0\0\0\0\0\0\0\0\0\0\0\0\x05\x06\x05\x04\x03\0",
                stop: 2,
                steps: 3,
                a: 8,
            },
            Told {
                name: "no block: zeros are HALT",
                file: b"DPJ\0\x01\x3c\x54\0\0\0\0\0\0\0\0\0\0\0\0\0\0\0",
                stop: 2,
                steps: 1,
                a: 0,
            },
            Told {
                name: "the later block is over the earlier",
                file: b"DPJ\0\x01\x3c\x54\0\0\0\0\0\0\0\0\0\0\0\0\0\0\0\0\0\0\x02\x06\x05\0\x01\0\x01\x09",
                stop: 2,
                steps: 2,
                a: 9,
            },
            // SC, whose receipt is abandoned
            Told {
                name: "LA 5, SC",
                file: b"DPJ\0\x01\x3c\x54\0\0\0\0\0\0\0\0\0\0\0\0\0\0\0\0\0\0\x03\x06\x05\x37",
                stop: 3,
                steps: 2,
                a: 5,
            },
            Told {
                name: "JMP 0",
                file: b"DPJ\0\x01\x3c\x54\0\0\0\0\0\0\0\0\0\0\0\0\0\0\0\0\0\0\x03\x44\0\0",
                stop: 1,
                steps: 65535,
                a: 0,
            },
            // the start is in sector 2
            Told {
                name: "no access",
                file: b"DPJ\0\x01\x3c\x54\0\0\0\0\0\0\0\0\0\0\0\0\0\x20\0",
                stop: 6,
                steps: 0,
                a: 0,
            },
        ],
        &[
            Refused {
                name: "empty",
                file: b"",
                refused: (2, 0),
            },
            // the file is judged first: its block is cut off, and bit 0 of the table is not looked at
            Refused {
                name: "3 before 7",
                file: b"DPJ\0\x01\x01\0\0\0\0\0\0\0\0\0\0\0\0\0\0\0\0\0\0\0\x05\x06",
                refused: (3, 22),
            },
            Refused {
                name: "bit 0",
                file: b"DPJ\0\x01\x3c\x55\0\0\0\0\0\0\0\0\0\0\0\0\0\0\0",
                refused: (7, 1),
            },
            Refused {
                name: "page 3 twice",
                file: b"DPJ\0\x01\x3c\x34\0\0\0\0\0\0\0\0\0\0\0\0\0\0\0",
                refused: (8, 1),
            },
            Refused {
                name: "a block past the end",
                file: b"DPJ\0\x01\x3c\x54\0\0\0\0\0\0\0\0\0\0\0\0\0\0\0\xff\xff\0\x02\x01\x02",
                refused: (15, 65535),
            },
            Refused {
                name: "a block in sector 2",
                file: b"DPJ\0\x01\x3c\x54\0\0\0\0\0\0\0\0\0\0\0\0\0\0\0\x1f\xff\0\x02\x01\x02",
                refused: (16, 8192),
            },
        ],
    )
}
