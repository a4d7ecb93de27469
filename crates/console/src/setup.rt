// A memory as the script sets it up: a board in filling, then sealed, and the layers on it.
ghost use Rattle.console.specs.Pages.{Gathered};

use crate::answers::{Answer, Denial};
use boards::{single, twin};
use memory::page::Page;
use memory::sets::PageSet;
use refusal::Refusal;
use script::commands::Setup;
use script::faults::Fault;
use std::mem;

// How many bytes a page has, a single board, and a half of a twin board.
const PAGE: usize = 4096;

pub const BOARD: usize = 65536;

pub const HALF: usize = 32768;

// A board that is sealed.
#[derive(Drop)]
pub enum Sealed {
    Single(single::Sealed),
    Twin(twin::Sealed),
}

// The stages of a board. Nobody has named one at first: it is a single one then.
#[derive(Drop)]
pub enum Stage {
    Unnamed(single::Filling),
    Single(single::Filling),
    Twin(twin::Filling),
    Sealed(Sealed),
}

#[derive(Drop)]
pub struct Rom {
    pub page: Page,
    pub bytes: Vec<u8>,
}

// The layers on a board: a ROM, if there is one, and the pages of the seal layer, if there is one.
#[derive(Drop)]
pub struct Layers {
    pub rom: Option<Rom>,
    pub seal: Option<PageSet>,
}

#[derive(Drop)]
pub struct Plan {
    pub stage: Stage,
    pub layers: Layers,
}

// The set of the pages with these numbers.
fn page_set(numbers: &[u8]) -> Result<PageSet, Refusal>
    ensures { Gathered numbers.now result }
{
    let mut pages = PageSet::none();
    for number in numbers {
        pages = pages.with(Page::try_from(*number)?);
    }
    Ok(pages)
}

impl Stage {
    // A twin board's buffer for writing is the first half.
    fn fill(&self, board: &mut [u8], page: u8, offset: u16, bytes: &[u8]) -> Result<(), Denial> {
        match self {
            Stage::Unnamed(filling) | Stage::Single(filling) => filling.fill(
                board,
                Page::try_from(page)?,
                offset,
                bytes,
            )?,
            Stage::Twin(filling) => {
                let half = board.len().min(HALF);
                filling.fill(&mut board[..half], Page::try_from(page)?, offset, bytes)?
            }
            Stage::Sealed(_) => return Err(Denial::Error(Fault::BoardIsSealed)),
        }
        Ok(())
    }

    // The sealed board; one that is sealed stays as it is.
    pub fn sealed(self, pages: PageSet) -> Sealed {
        match self {
            Stage::Unnamed(filling) | Stage::Single(filling) => Sealed::Single(filling.seal(pages)),
            Stage::Twin(filling) => Sealed::Twin(filling.seal(pages)),
            Stage::Sealed(board) => board,
        }
    }
}

impl Plan {
    pub fn new() -> Plan {
        Plan {
            stage: Stage::Unnamed(single::Filling::new()),
            layers: Layers {
                rom: None,
                seal: None,
            },
        }
    }

    fn name(&mut self, stage: Stage) -> Result<(), Denial> {
        if !matches!(self.stage, Stage::Unnamed(_)) {
            return Err(Denial::Error(Fault::GivenAlready));
        }
        self.stage = stage;
        Ok(())
    }

    fn seal(&mut self, numbers: &[u8]) -> Result<(), Denial> {
        if matches!(self.stage, Stage::Sealed(_)) {
            return Err(Denial::Error(Fault::BoardIsSealed));
        }
        let pages = page_set(numbers)?;
        let stage = mem::replace(&mut self.stage, Stage::Unnamed(single::Filling::new()));
        self.stage = Stage::Sealed(stage.sealed(pages));
        Ok(())
    }

    fn seal_layer(&mut self, numbers: &[u8]) -> Result<(), Denial> {
        if self.layers.seal.is_some() {
            return Err(Denial::Error(Fault::GivenAlready));
        }
        self.layers.seal = Some(page_set(numbers)?);
        Ok(())
    }

    // Zeros stand up to the end of the page.
    fn rom(&mut self, page: u8, mut bytes: Vec<u8>) -> Result<(), Denial> {
        if self.layers.rom.is_some() {
            return Err(Denial::Error(Fault::GivenAlready));
        }
        if bytes.len() > PAGE {
            return Err(Denial::Error(Fault::TooManyBytes));
        }
        bytes.resize(PAGE, 0).map_err(Fault::NoMemory)?;
        let page = Page::try_from(page)?;
        self.layers.rom = Some(Rom { page, bytes });
        Ok(())
    }

    // Does what a line on memory says, over the board's bytes.
    pub fn follow(&mut self, setup: Setup, board: &mut [u8]) -> Result<Answer, Denial> {
        match setup {
            Setup::Single => self.name(Stage::Single(single::Filling::new()))?,
            Setup::Twin => self.name(Stage::Twin(twin::Filling::new()))?,
            Setup::Fill {
                page,
                offset,
                bytes,
            } => self.stage.fill(board, page, offset, bytes.as_slice())?,
            Setup::Seal { pages } => self.seal(pages.as_slice())?,
            Setup::Rom { page, bytes } => self.rom(page, bytes)?,
            Setup::SealLayer { pages } => self.seal_layer(pages.as_slice())?,
        }
        Ok(Answer::Done)
    }
}
