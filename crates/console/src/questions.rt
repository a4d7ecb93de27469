// Questions that name no job: what memory shows, how long an instruction is, what an image holds.
ghost use Rattle.std.specs.Prelude.{◌≡◌, ℕ};
ghost use Rattle.memory.specs.Memories.{sixteenth};
ghost use Rattle.console.specs.Questions.{hash_step, hash_of, takes_answer, Asked};

use crate::answers::{Answer, Denial, Placed, Read};
use decode::lengths::length_of;
use image::Image;
use memory::Memory;
use memory::page::Page;
use script::commands::Question;
use script::faults::Fault;
use std::alloc::Global;

// The FNV-1a hash of 64 bits: its beginning, and what each step multiplies with.
const BASIS: u64 = 14695981039346656037;

const PRIME: u64 = 1099511628211;

// Whether a page takes writes: refused with 15 above page 15.
fn takes<M: Memory>(memory: &M, page: u8) -> Result<Answer, Denial>
    ensures { result ≡ takes_answer (M.mem memory.now) (sixteenth page) }
{
    let page = Page::try_from(page)?;
    Ok(Answer::Number(u64::from(memory.takes_writes(page))))
}

// The hash with one byte more.
fn hash_step(hash: u64, byte: u8) -> u64
    ensures { result ≡ hash_step hash byte }
{
    (hash ^ u64::from(byte)).wrapping_mul(PRIME)
}

// The hash of the 65,536 bytes that the memory shows.
pub fn hash<M: Memory>(memory: &M) -> u64
    ensures { result ≡ hash_of (M.mem memory.now).byte 65536 }
{
    (0..=u16::MAX).fold(BASIS, |hash, at| hash_step(hash, memory.read(at)))
}

// The blocks of an image, each without its bytes.
fn placed(image: &Image, heap: Global) -> Result<Vec<Placed>, Fault> {
    let blocks = image.blocks().map(|block| Placed {
        offset: block.offset,
        at: block.address,
        length: block.bytes.len(),
    });
    Ok(blocks.collect(heap)?)
}

fn image_of(file: &[u8], heap: Global) -> Result<Read, Denial> {
    let image = Image::read(file)?;
    Ok(Read {
        table: image.table(),
        start: image.start(),
        blocks: placed(&image, heap)?,
    })
}

// Answers from what the memory shows.
pub fn answer_question<M: Memory>(
    memory: &M,
    question: Question,
    heap: Global,
) -> Result<Answer, Denial>
    ensures { Asked question (M.mem memory.now) result }
{
    Ok(match question {
        Question::Read { at } => Answer::Number(u64::from(memory.read(at))),
        Question::Takes { page } => takes(memory, page)?,
        Question::Hash => Answer::Number(hash(memory)),
        Question::Length { code } => Answer::Number(u64::from(length_of(code))),
        Question::Image { bytes } => Answer::Image(image_of(bytes.as_slice(), heap)?),
    })
}
