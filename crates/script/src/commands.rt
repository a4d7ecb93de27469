// What a line asks for.
use model::job::Registers;

// A line on memory: a board in filling, what goes into it, and the layers on it.
#[derive(Drop)]
pub enum Setup {
    Single,
    Twin,
    Fill {
        page: u8,
        offset: u16,
        bytes: Vec<u8>,
    },
    Seal {
        pages: Vec<u8>,
    },
    Rom {
        page: u8,
        bytes: Vec<u8>,
    },
    SealLayer {
        pages: Vec<u8>,
    },
}

// A call of the engine.
#[derive(Drop)]
pub enum Call {
    Open {
        job: u8,
        start: u16,
        table: [u8; 15],
    },
    Load {
        job: u8,
        at: u16,
        bytes: Vec<u8>,
    },
    Run {
        job: u8,
        limit: u16,
    },
    Reply {
        job: u8,
        number: u32,
        registers: Registers,
    },
    Abandon {
        job: u8,
        number: u32,
    },
    Look {
        job: u8,
        at: u16,
        buffer: Vec<u8>,
    },
    State {
        job: u8,
    },
    Close {
        job: u8,
    },
}

// A question that names no job.
#[derive(Drop)]
pub enum Question {
    Read { at: u16 },
    Takes { page: u8 },
    Hash,
    Length { code: u8 },
    Image { bytes: Vec<u8> },
}

#[derive(Drop)]
pub enum Command {
    Setup(Setup),
    Call(Call),
    Question(Question),
}
