// Layers on boards, in both orders.
use super::told;
use boards::{single, twin};
use layers::rom::RomLayer;
use layers::seal::SealLayer;
use memory::Memory;
use memory::page::Page;
use memory::sets::PageSet;
use std::test::Fail;

// What a memory shows at a page's first byte, and whether the page takes writes.
fn probe<M: Memory>(memory: &M, page: Page) -> (u8, bool) {
    (memory.read(page.address(0)), memory.takes_writes(page))
}

// How a write is refused, by number and place.
fn tried<M: Memory>(memory: &mut M, at: u16, b: u8) -> Result<(), (u8, u32)> {
    memory.write(at, b).map_err(told)
}

// A seal layer on a ROM layer on a single board: page 2 is ROM, page 3 sealed above, page 4 sealed below.
#[test]
fn seal_on_rom_on_single(rt: HostRuntime) -> Result<(), Fail> {
    let two = Page::try_from(2)?;
    let three = Page::try_from(3)?;
    let four = Page::try_from(4)?;
    let five = Page::try_from(5)?;
    let rom = vec![in rt.alloc(); 7u8; 4096]?;
    let mut bytes = vec![in rt.alloc(); 1u8; 65536]?;
    let board = single::Filling::new()
        .seal(PageSet::none().with(four))
        .board(&mut bytes);
    let mut pile = SealLayer::over(
        RomLayer::over(board, two, &rom),
        PageSet::none().with(three),
    );
    assert_eq!(rt; probe(&pile, two), (7, false));
    assert_eq!(rt; probe(&pile, three), (1, false));
    assert_eq!(rt; probe(&pile, four), (1, false));
    assert_eq!(rt; probe(&pile, five), (1, true));
    assert_eq!(rt; tried(&mut pile, 8192, 9), Err((17, 8192)));
    assert_eq!(rt; tried(&mut pile, 12289, 9), Err((17, 12289)));
    assert_eq!(rt; tried(&mut pile, 16384, 9), Err((17, 16384)));
    assert_eq!(rt; tried(&mut pile, 20480, 9), Ok(()));
    assert_eq!(rt; probe(&pile, five), (9, true));
    assert_eq!(rt; probe(&pile, two), (7, false));
    Ok(())
}

// A ROM layer on a seal layer on a twin board: page 9 is in the upper buffer, page 1 sealed, page 0 ROM.
#[test]
fn rom_on_seal_on_twin(rt: HostRuntime) -> Result<(), Fail> {
    let zero = Page::try_from(0)?;
    let one = Page::try_from(1)?;
    let two = Page::try_from(2)?;
    let nine = Page::try_from(9)?;
    let rom = vec![in rt.alloc(); 7u8; 4096]?;
    let mut lower = vec![in rt.alloc(); 1u8; 32768]?;
    let upper = vec![in rt.alloc(); 3u8; 32768]?;
    let filling = twin::Filling::new();
    filling.fill(&mut lower, two, 0, &[5])?;
    let upper_fill = filling.fill(&mut lower, nine, 6, &[5]);
    assert_eq!(rt; upper_fill.map_err(told), Err((17, 6)));
    let board = filling.seal(PageSet::none()).board(&mut lower, &upper);
    let mut pile = RomLayer::over(
        SealLayer::over(board, PageSet::none().with(one)),
        zero,
        &rom,
    );
    assert_eq!(rt; probe(&pile, zero), (7, false));
    assert_eq!(rt; probe(&pile, one), (1, false));
    assert_eq!(rt; probe(&pile, two), (5, true));
    assert_eq!(rt; probe(&pile, nine), (3, false));
    assert_eq!(rt; tried(&mut pile, 8193, 8), Ok(()));
    assert_eq!(rt; pile.read(8193), 8);
    assert_eq!(rt; tried(&mut pile, 36865, 8), Err((17, 36865)));
    Ok(())
}

// A board over a buffer of the wrong length shows zeros and takes no writes, and one wrong half does that to a twin board.
#[test]
fn wrong_lengths(rt: HostRuntime) -> Result<(), Fail> {
    let two = Page::try_from(2)?;
    let mut short = vec![in rt.alloc(); 1u8; 65535]?;
    let board = single::Filling::new()
        .seal(PageSet::none())
        .board(&mut short);
    assert_eq!(rt; probe(&board, two), (0, false));
    let mut lower = vec![in rt.alloc(); 1u8; 32768]?;
    let upper = vec![in rt.alloc(); 3u8; 32767]?;
    let twins = twin::Filling::new()
        .seal(PageSet::none())
        .board(&mut lower, &upper);
    assert_eq!(rt; probe(&twins, two), (0, false));
    Ok(())
}
