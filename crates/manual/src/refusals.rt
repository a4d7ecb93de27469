// Each refusal that can be reached, with its number and place, and what it leaves as it was. The ground 13 is left out: it takes more than four thousand million steps to meet.
use super::bench::{TABLE, at_desk, check_answer, check_refused, plain, told, watch, zeros};
use super::owing::show_elsewhere;
use boards::single::{Filling, SingleBoard};
use engine::jobs::Engine;
use image::Image;
use memory::Memory;
use memory::page::{Page, Sector};
use memory::sets::PageSet;
use model::job::{Registers, State};
use refusal::Refusal;
use std::process::Abort;
use std::test::*;

// An image file, and how it is refused: by number and place, which are what is tested.
#[derive(Clone, Copy)]
struct File {
    bytes: &'static [u8],
    refused: (u8, u32),
}

fn check_files(rt: &impl Abort, rows: &[File]) {
    for row in rows {
        check_refused(rt, Image::read(row.bytes), row.refused);
    }
}

// The sample image: a table, the start 0, and one block of five bytes.
const SAMPLE: [u8; 31] = [
    68, 80, 74, 0, 1, 60, 84, 0, 0, 0, 0, 0, 0, 0, 0, 0, 0, 0, 0, 0, 0, 0, 0, 0, 0, 5, 6, 5, 4, 3,
    0,
];

// A file that is cut off: 2 within the first five bytes, 3 at the first offset of what is incomplete.
#[test]
fn files_cut_off(rt: HostRuntime) -> Result<(), Fail> {
    for (length, refused) in [
        (0usize, (2u8, 0u32)),
        (4, (2, 0)),
        (5, (3, 5)),
        (19, (3, 5)),
        (20, (3, 20)),
        (21, (3, 20)),
        (23, (3, 22)),
        (26, (3, 22)),
        (30, (3, 22)),
    ] {
        assert!(rt; length <= 31);
        check_refused(&rt, Image::read(&SAMPLE[..length]), refused);
    }
    // without a block, and with one, it is complete
    assert!(rt; Image::read(&SAMPLE[..22]).is_ok());
    assert!(rt; Image::read(&SAMPLE).is_ok());
    Ok(())
}

// The first five bytes, each in turn.
#[test]
fn files_of_another_kind(rt: HostRuntime) {
    check_files(
        &rt,
        &[
            File {
                bytes: b"EPJ\0\x01",
                refused: (2, 0),
            },
            File {
                bytes: b"DQJ\0\x01",
                refused: (2, 0),
            },
            File {
                bytes: b"DPK\0\x01",
                refused: (2, 0),
            },
            File {
                bytes: b"DPJ\x01\x01",
                refused: (2, 0),
            },
            File {
                bytes: b"DPJ\0\x02",
                refused: (2, 0),
            },
            File {
                bytes: b"DPJ\0\x01",
                refused: (3, 5),
            },
        ],
    );
}

// 16,384 bytes are not too many, and one more is refused before anything else.
#[test]
fn files_too_long(rt: HostRuntime) -> Result<(), Fail> {
    let most = vec![in rt.alloc(); 0u8; 16384]?;
    check_refused(&rt, Image::read(&most), (2, 0));
    let more = vec![in rt.alloc(); 0u8; 16385]?;
    check_refused(&rt, Image::read(&more), (1, 16384));
    Ok(())
}

// A block is a part of the file, with the offset of its header.
#[test]
fn blocks_of_a_file(rt: HostRuntime) -> Result<(), Fail> {
    let image = Image::read(&SAMPLE)?;
    let mut blocks = image.blocks();
    let Some(block) = blocks.next() else {
        return Err(Fail::new("no block"));
    };
    assert_eq!(rt;
        (
            image.start(),
            block.offset,
            block.address,
            block.bytes.len(),
        ),
        (0, 22, 0, 5)
    );
    assert!(rt; blocks.next().is_none());
    Ok(())
}

// Page and sector numbers go up to 15.
#[test]
fn numbers(rt: HostRuntime) -> Result<(), Fail> {
    check_refused(&rt, Page::try_from(16), (15, 0));
    check_refused(&rt, Sector::try_from(16), (15, 0));
    assert!(rt; Page::try_from(15).is_ok() && Sector::try_from(15).is_ok());
    Ok(())
}

// A buffer of the wrong length is refused before bytes past the end of a page.
#[test]
fn fills_of_a_short_buffer(rt: HostRuntime) -> Result<(), Fail> {
    let page = Page::try_from(15)?;
    let filling = Filling::new();
    let mut short = vec![in rt.alloc(); 7u8; 65535]?;
    check_refused(&rt, filling.fill(&mut short, page, 0, &[1]), (1, 0));
    check_refused(&rt, filling.fill(&mut short, page, 4095, &[1, 2]), (1, 0));
    // the board over it shows zeros and takes no writes
    let mut board = plain(&mut short);
    check_refused(&rt, board.write(5, 1), (17, 5));
    assert_eq!(rt; board.read(5), 0);
    Ok(())
}

// Bytes past the end of a page are refused at the offset given.
#[test]
fn fills(rt: HostRuntime) -> Result<(), Fail> {
    let page = Page::try_from(15)?;
    let filling = Filling::new();
    let mut bytes = vec![in rt.alloc(); 7u8; 65536]?;
    check_refused(
        &rt,
        filling.fill(&mut bytes, page, 4095, &[1, 2]),
        (15, 4095),
    );
    check_refused(&rt, filling.fill(&mut bytes, page, 4097, &[]), (15, 4097));
    filling.fill(&mut bytes, page, 4096, &[])?;
    filling.fill(&mut bytes, page, 4094, &[1, 2])?;
    let board = plain(&mut bytes);
    assert_eq!(rt;
        [board.read(65533), board.read(65534), board.read(65535)],
        [7, 1, 2]
    );
    Ok(())
}

// A write into a sealed page is refused at its address.
#[test]
fn writes(rt: HostRuntime) -> Result<(), Fail> {
    let mut bytes = vec![in rt.alloc(); 7u8; 65536]?;
    let mut board = Filling::new()
        .seal(PageSet::none().with(Page::try_from(6)?))
        .board(&mut bytes);
    check_refused(&rt, board.write(24576, 1), (17, 24576));
    check_refused(&rt, board.write(28671, 1), (17, 28671));
    board.write(28672, 1)?;
    assert_eq!(rt;
        [board.read(24576), board.read(28671), board.read(28672)],
        [7, 7, 1]
    );
    Ok(())
}

// An opening of a job, and how it is refused.
#[derive(Clone, Copy)]
struct Opening {
    name: &'static str,
    job: u8,
    table: [u8; 15],
    refused: (u8, u32),
}

// Each is tried while job 0 holds page 0 and page 6 is sealed.
const OPENINGS: [Opening; 13] = [
    Opening {
        name: "job 8",
        job: 8,
        table: [1, 0, 0, 0, 0, 0, 0, 0, 0, 0, 0, 0, 0, 0, 0],
        refused: (4, 0),
    },
    Opening {
        name: "job 255",
        job: 255,
        table: TABLE,
        refused: (4, 0),
    },
    Opening {
        name: "job 0 again",
        job: 0,
        table: [1, 0, 0, 0, 0, 0, 0, 0, 0, 0, 0, 0, 0, 0, 0],
        refused: (5, 0),
    },
    Opening {
        name: "bit 0",
        job: 1,
        table: [0, 0, 0, 1, 0, 0, 0, 0, 0, 0, 0, 0, 0, 0, 0],
        refused: (7, 3),
    },
    Opening {
        name: "bit 1, twice",
        job: 1,
        table: [0, 0, 0, 0, 0, 0, 0, 0, 0, 0, 0, 0, 0, 2, 3],
        refused: (7, 13),
    },
    // an entry at the end comes before page 2 named twice at the start
    Opening {
        name: "7 before 8",
        job: 1,
        table: [44, 36, 0, 0, 0, 0, 0, 0, 0, 0, 0, 0, 0, 0, 1],
        refused: (7, 14),
    },
    Opening {
        name: "page 2 twice",
        job: 1,
        table: [44, 0, 36, 0, 0, 0, 0, 0, 0, 0, 0, 0, 0, 0, 0],
        refused: (8, 2),
    },
    Opening {
        name: "a sealed page twice",
        job: 1,
        table: [100, 0, 0, 0, 0, 0, 0, 0, 0, 0, 0, 0, 0, 0, 100],
        refused: (8, 14),
    },
    Opening {
        name: "8 before 9",
        job: 1,
        table: [108, 36, 36, 0, 0, 0, 0, 0, 0, 0, 0, 0, 0, 0, 0],
        refused: (8, 2),
    },
    Opening {
        name: "writing to a sealed page",
        job: 1,
        table: [0, 108, 0, 0, 0, 0, 0, 0, 0, 0, 0, 0, 0, 0, 0],
        refused: (9, 1),
    },
    Opening {
        name: "9 before 10",
        job: 1,
        table: [12, 108, 0, 0, 0, 0, 0, 0, 0, 0, 0, 0, 0, 0, 0],
        refused: (9, 1),
    },
    Opening {
        name: "page 0 is held",
        job: 1,
        table: [76, 12, 0, 0, 0, 0, 0, 0, 0, 0, 0, 0, 0, 0, 0],
        refused: (10, 1),
    },
    Opening {
        name: "page 0 is held, for reading",
        job: 1,
        table: [76, 0, 4, 0, 0, 0, 0, 0, 0, 0, 0, 0, 0, 0, 0],
        refused: (10, 2),
    },
];

// A board with page 6 sealed, and a 9 at the start of pages 4 and 6.
fn board_with_nines<'a>(bytes: &'a mut [u8]) -> Result<SingleBoard<'a>, Refusal> {
    let sealed = Page::try_from(6)?;
    let filling = Filling::new();
    filling.fill(bytes, Page::try_from(4)?, 0, &[9])?;
    filling.fill(bytes, sealed, 0, &[9])?;
    Ok(filling.seal(PageSet::none().with(sealed)).board(bytes))
}

// A refused opening does not clear page 4 and does not open job 1.
#[test]
fn openings_refused(rt: HostRuntime) -> Result<(), Fail> {
    let mut bytes = zeros(&rt)?;
    let mut board = board_with_nines(&mut bytes)?;
    let mut engine = Engine::new();
    engine.open(
        &mut board,
        0,
        [12, 0, 0, 0, 0, 0, 0, 0, 0, 0, 0, 0, 0, 0, 0],
        0,
    )?;
    for row in &OPENINGS {
        let answer = engine.open(&mut board, row.job, row.table, 0);
        check_answer(&rt, row.name, answer, Some(row.refused));
        assert_eq!(rt; board.read(16384), 9, "{}", row.name);
        check_answer(&rt, row.name, engine.state_of(1), Some((6, 0)));
    }
    Ok(())
}

// A page without access counts for nothing, and a page that takes no writes may be held twice. Held pages that take writes are cleared, and others are not.
#[test]
fn openings_accepted(rt: HostRuntime) -> Result<(), Fail> {
    let mut bytes = zeros(&rt)?;
    let mut board = board_with_nines(&mut bytes)?;
    let mut engine = Engine::new();
    engine.open(
        &mut board,
        0,
        [12, 0, 0, 0, 0, 0, 0, 0, 0, 0, 0, 0, 0, 0, 0],
        0,
    )?;
    engine.open(
        &mut board,
        1,
        [76, 8, 100, 0, 0, 0, 0, 0, 0, 0, 0, 0, 0, 0, 0],
        300,
    )?;
    engine.open(
        &mut board,
        2,
        [100, 0, 0, 0, 0, 0, 0, 0, 0, 0, 0, 0, 0, 0, 0],
        0,
    )?;
    let state = engine.state_of(1)?;
    assert_eq!(rt;
        (
            board.read(16384),
            board.read(24576),
            state.processor.p,
            state.steps,
        ),
        (0, 9, 300, 0)
    );
    Ok(())
}

// A load, and how it is refused, if it is.
#[derive(Clone, Copy)]
struct Loading {
    name: &'static str,
    job: u8,
    at: u16,
    bytes: &'static [u8],
    refused: Option<(u8, u32)>,
}

// Job 0 has page 0 in sector 0, nothing in 1, the sealed page 6 in 2, page 7 without bit 3 in 3, the sealed page 9 in 4, and page 8 in 14.
fn check_loads<R: Abort + AllocGlobal>(rt: &R, rows: &[Loading]) -> Result<(), Fail> {
    let mut bytes = vec![in rt.alloc(); 0u8; 65536]?;
    let mut board = Filling::new()
        .seal(
            PageSet::none()
                .with(Page::try_from(6)?)
                .with(Page::try_from(9)?),
        )
        .board(&mut bytes);
    let mut engine = Engine::new();
    engine.open(
        &mut board,
        0,
        [12, 0, 100, 116, 148, 0, 0, 0, 0, 0, 0, 0, 0, 0, 140],
        0,
    )?;
    for row in rows {
        let answer = engine.load(&mut board, row.job, row.at, row.bytes);
        check_answer(rt, row.name, answer, row.refused);
    }
    // the bytes of the accepted ones are there, and none of the others
    assert_eq!(rt;
        [
            board.read(4094),
            board.read(4095),
            board.read(4096),
            board.read(24576),
            board.read(28671),
        ],
        [1, 2, 0, 0, 0]
    );
    assert_eq!(rt;
        [
            board.read(28672),
            board.read(32767),
            board.read(36863),
            board.read(36864),
        ],
        [3, 0, 4, 0]
    );
    Ok(())
}

#[test]
fn loads(rt: HostRuntime) -> Result<(), Fail> {
    check_loads(
        &rt,
        &[
            Loading {
                name: "accepted",
                job: 0,
                at: 4094,
                bytes: &[1, 2],
                refused: None,
            },
            Loading {
                name: "accepted without bit 3",
                job: 0,
                at: 12288,
                bytes: &[3],
                refused: None,
            },
            Loading {
                name: "accepted in sector 14",
                job: 0,
                at: 61439,
                bytes: &[4],
                refused: None,
            },
            Loading {
                name: "no byte",
                job: 0,
                at: 65535,
                bytes: &[],
                refused: None,
            },
            Loading {
                name: "no byte in a sealed page",
                job: 0,
                at: 8192,
                bytes: &[],
                refused: None,
            },
            Loading {
                name: "job 8",
                job: 8,
                at: 65535,
                bytes: &[9, 9],
                refused: Some((4, 0)),
            },
            Loading {
                name: "job 7 is not open",
                job: 7,
                at: 65535,
                bytes: &[9, 9],
                refused: Some((6, 0)),
            },
            Loading {
                name: "past the end",
                job: 0,
                at: 65535,
                bytes: &[9, 9],
                refused: Some((15, 65535)),
            },
            Loading {
                name: "up to the end",
                job: 0,
                at: 65535,
                bytes: &[9],
                refused: Some((16, 65535)),
            },
            Loading {
                name: "the second byte",
                job: 0,
                at: 4095,
                bytes: &[9, 9],
                refused: Some((16, 4096)),
            },
            Loading {
                name: "the first byte",
                job: 0,
                at: 8191,
                bytes: &[9, 9],
                refused: Some((16, 8191)),
            },
            Loading {
                name: "behind an allowed one",
                job: 0,
                at: 61439,
                bytes: &[9, 9],
                refused: Some((16, 61440)),
            },
            Loading {
                name: "a sealed page",
                job: 0,
                at: 8192,
                bytes: &[9, 9],
                refused: Some((17, 8192)),
            },
            Loading {
                name: "a sealed page at the first byte",
                job: 0,
                at: 12287,
                bytes: &[9, 9],
                refused: Some((17, 12287)),
            },
            Loading {
                name: "a sealed page at the second byte",
                job: 0,
                at: 16383,
                bytes: &[9, 9],
                refused: Some((17, 16384)),
            },
            Loading {
                name: "16 at the last byte before 17 at the first",
                job: 0,
                at: 20479,
                bytes: &[9, 9],
                refused: Some((16, 20480)),
            },
        ],
    )
}

// A job that is not there or not open; a state that is refused leaves the buffer.
#[test]
fn jobs_not_open(rt: HostRuntime) -> Result<(), Fail> {
    let mut bytes = zeros(&rt)?;
    let mut board = plain(&mut bytes);
    at_desk(|desk| {
        check_refused(&rt, desk.run(&mut board, 8, 9), (4, 0));
        check_refused(&rt, desk.run(&mut board, 0, 9), (6, 0));
        desk.open(&mut board, 0, TABLE, 44)?;
        let mut state = State::blank();
        desk.state(0, &mut state)?;
        check_refused(&rt, desk.state(8, &mut state), (4, 0));
        check_refused(&rt, desk.state(1, &mut state), (6, 0));
        assert_eq!(rt; state.processor.p, 44);
        Ok(())
    })
}

// A job that has ended, since zeros are HALT: it does not run and is not opened again, and takes bytes.
#[test]
fn jobs_ended(rt: HostRuntime) -> Result<(), Fail> {
    let mut bytes = zeros(&rt)?;
    let mut board = plain(&mut bytes);
    at_desk(|desk| {
        desk.open(&mut board, 0, TABLE, 44)?;
        let seen = watch(desk, &mut board, 9)?;
        check_refused(&rt, watch(desk, &mut board, 0), (12, 0));
        check_refused(&rt, desk.open(&mut board, 0, TABLE, 0), (5, 0));
        desk.load(&mut board, 0, 0, &[1])?;
        let state = desk.state_of(0)?;
        assert_eq!(rt;
            (
                seen.run.stop.number(),
                state.steps,
                state.processor.p,
                board.read(0),
            ),
            (2, 1, 45, 1)
        );
        Ok(())
    })
}

// A receipt: its job waits, another engine refuses it, with 6 where it has no such job open and with 14 where that does not wait, and its own engine takes it and closes the job.
#[test]
fn receipts(rt: HostRuntime) -> Result<(), Fail> {
    let mut bytes = zeros(&rt)?;
    let mut board = plain(&mut bytes);
    let mut engine = Engine::new();
    let mut other = Engine::new();
    for number in [6u8, 14] {
        engine.open(&mut board, 0, TABLE, 0)?;
        engine.load(&mut board, 0, 0, &[0o067])?;
        let Some(shown) = show_elsewhere(&mut engine, &mut other, &mut board)? else {
            return Err(Fail::new("no receipt"));
        };
        // counted from 1 at each opening
        assert_eq!(rt; shown.number, 1);
        assert_eq!(rt; told(shown.waiting), (11, 0));
        check_refused(&rt, shown.closing, (11, 0));
        check_refused(&rt, shown.elsewhere, (number, 0));
        check_refused(&rt, engine.state_of(0), (6, 0));
        if number == 6 {
            other.open(&mut board, 0, TABLE, 0)?;
        }
    }
    // the other engine's job is as it was
    assert_eq!(rt; other.state_of(0)?.steps, 0);
    Ok(())
}

// A reply sets the registers and makes the job ready; its next system call has the next number.
#[test]
fn replies(rt: HostRuntime) -> Result<(), Fail> {
    let mut bytes = zeros(&rt)?;
    let mut board = plain(&mut bytes);
    at_desk(|desk| {
        desk.open(&mut board, 0, TABLE, 0)?;
        desk.load(&mut board, 0, 0, &[0o067, 0o067])?;
        let registers = Registers {
            a: 1,
            b: 2,
            c: 3,
            d: 4,
            e: 5,
            h: 6,
            l: 7,
            x: 8,
        };
        let first = watch(desk, &mut board, 9)?;
        assert_eq!(rt; desk.reply(0, 1, registers), Ok(()));
        let seen = watch(desk, &mut board, 9)?;
        let bank = seen.state.processor.bank();
        assert_eq!(rt;
            (
                first.owed,
                seen.owed,
                seen.state.steps,
                seen.state.processor.p
            ),
            (Some(1), Some(2), 2, 2)
        );
        assert_eq!(rt;
            [
                bank.a, bank.b, bank.c, bank.d, bank.e, bank.h, bank.l, bank.x,
            ],
            [1, 2, 3, 4, 5, 6, 7, 8]
        );
        Ok(())
    })
}

// A look fills the whole buffer, or leaves it as it was.
#[test]
fn looks(rt: HostRuntime) -> Result<(), Fail> {
    let mut bytes = zeros(&rt)?;
    let mut board = plain(&mut bytes);
    let mut engine = Engine::new();
    engine.open(&mut board, 0, TABLE, 0)?;
    engine.load(&mut board, 0, 4095, &[1, 2])?;
    let mut out = [9u8; 2];
    check_refused(&rt, engine.look(&board, 8, 65535, &mut out), (4, 0));
    check_refused(&rt, engine.look(&board, 7, 65535, &mut out), (6, 0));
    check_refused(&rt, engine.look(&board, 0, 65535, &mut out), (15, 65535));
    check_refused(&rt, engine.look(&board, 0, 8191, &mut out), (16, 8192));
    assert_eq!(rt; out, [9, 9]);
    engine.look(&board, 0, 4095, &mut out)?;
    assert_eq!(rt; out, [1, 2]);
    Ok(())
}

// A closing frees the pages and leaves their bytes, which the next opening clears.
#[test]
fn closings(rt: HostRuntime) -> Result<(), Fail> {
    let mut bytes = zeros(&rt)?;
    let mut board = plain(&mut bytes);
    let mut engine = Engine::new();
    engine.open(&mut board, 0, TABLE, 0)?;
    engine.load(&mut board, 0, 0, &[5])?;
    check_refused(&rt, engine.close(8), (4, 0));
    check_refused(&rt, engine.close(1), (6, 0));
    check_refused(&rt, engine.open(&mut board, 1, TABLE, 0), (10, 0));
    engine.close(0)?;
    assert_eq!(rt; board.read(0), 5);
    engine.open(&mut board, 1, TABLE, 0)?;
    assert_eq!(rt; board.read(0), 0);
    Ok(())
}

// The memory is lent at each call. Over another one, whose page 0 is sealed, the job meets a page that takes no writes.
#[test]
fn another_memory(rt: HostRuntime) -> Result<(), Fail> {
    let mut bytes = zeros(&rt)?;
    let mut board = plain(&mut bytes);
    at_desk(|desk| {
        desk.open(&mut board, 0, TABLE, 0)?;
        let mut others = zeros(&rt)?;
        let filling = Filling::new();
        // LA 1, LMA
        filling.fill(&mut others, Page::try_from(0)?, 0, &[0o006, 1, 0o370])?;
        let mut fixed = filling
            .seal(PageSet::none().with(Page::try_from(0)?))
            .board(&mut others);
        check_refused(&rt, desk.load(&mut fixed, 0, 5, &[1]), (17, 5));
        let seen = watch(desk, &mut fixed, 9)?;
        assert_eq!(rt;
            (
                seen.run.stop.number(),
                seen.run.steps,
                seen.state.processor.p,
                fixed.read(0),
            ),
            (7, 1, 2, 0o006)
        );
        Ok(())
    })
}
