// The command that a line is. Every line is a command, nothing at all, or a fault.
use crate::commands::{Call, Command, Question, Setup};
use crate::faults::Fault;
use crate::fields::Fields;
use std::alloc::Global;
use words::{Split, split_word, uncommented};

// A line: its first word, the numbers behind it, and the heap for its bytes.
#[derive(Drop)]
struct Line<'a> {
    word: &'a [u8],
    fields: Fields<'a>,
    heap: Global,
}

// Each of the first three gives nothing where the word is none of its own.
impl Line<'_> {
    fn setup(&mut self) -> Result<Option<Setup>, Fault> {
        Ok(Some(match self.word {
            b"single" => Setup::Single,
            b"twin" => Setup::Twin,
            b"fill" => Setup::Fill {
                page: self.fields.byte()?,
                offset: self.fields.address()?,
                bytes: self.fields.take_bytes(self.heap)?,
            },
            b"seal" => Setup::Seal {
                pages: self.fields.take_bytes(self.heap)?,
            },
            b"rom" => Setup::Rom {
                page: self.fields.byte()?,
                bytes: self.fields.take_bytes(self.heap)?,
            },
            b"seallayer" => Setup::SealLayer {
                pages: self.fields.take_bytes(self.heap)?,
            },
            _ => return Ok(None),
        }))
    }

    fn call(&mut self) -> Result<Option<Call>, Fault> {
        Ok(Some(match self.word {
            b"open" => Call::Open {
                job: self.fields.byte()?,
                start: self.fields.address()?,
                table: self.fields.table()?,
            },
            b"load" => Call::Load {
                job: self.fields.byte()?,
                at: self.fields.address()?,
                bytes: self.fields.take_bytes(self.heap)?,
            },
            b"run" => Call::Run {
                job: self.fields.byte()?,
                limit: self.fields.address()?,
            },
            b"reply" => Call::Reply {
                job: self.fields.byte()?,
                number: self.fields.number(u32::MAX)?,
                registers: self.fields.registers()?,
            },
            b"abandon" => Call::Abandon {
                job: self.fields.byte()?,
                number: self.fields.number(u32::MAX)?,
            },
            b"look" => Call::Look {
                job: self.fields.byte()?,
                at: self.fields.address()?,
                buffer: self.fields.buffer(self.heap)?,
            },
            b"state" => Call::State {
                job: self.fields.byte()?,
            },
            b"close" => Call::Close {
                job: self.fields.byte()?,
            },
            _ => return Ok(None),
        }))
    }

    fn question(&mut self) -> Result<Option<Question>, Fault> {
        Ok(Some(match self.word {
            b"read" => Question::Read {
                at: self.fields.address()?,
            },
            b"takes" => Question::Takes {
                page: self.fields.byte()?,
            },
            b"hash" => Question::Hash,
            b"length" => Question::Length {
                code: self.fields.byte()?,
            },
            b"image" => Question::Image {
                bytes: self.fields.take_bytes(self.heap)?,
            },
            _ => return Ok(None),
        }))
    }

    fn command(&mut self) -> Result<Command, Fault> {
        if let Some(setup) = self.setup()? {
            return Ok(Command::Setup(setup));
        }
        if let Some(call) = self.call()? {
            return Ok(Command::Call(call));
        }
        let question = self.question()?;
        question.map(Command::Question).ok_or(Fault::UnknownWord)
    }
}

// The command of a line, if it has a word.
pub fn parse(line: &[u8], heap: Global) -> Result<Option<Command>, Fault> {
    let Some(Split { word, rest }) = split_word(uncommented(line)) else {
        return Ok(None);
    };
    let mut line = Line {
        word,
        fields: Fields::of(rest),
        heap,
    };
    let command = line.command()?;
    line.fields.end()?;
    Ok(Some(command))
}
