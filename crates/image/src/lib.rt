// Image files: five fixed bytes, a table, a starting address, and blocks of bytes to the end.
#![tactic(auto)]

ghost use Rattle.std.specs.Prelude.{◌≡◌, ℕ, ◌+◌, ◌≤◌, Bool, true, false, length};
ghost use Rattle.std.specs.Iterator.{at_most};
ghost use Rattle.image.specs.Files.{image_of, begins, blocks_end};
ghost use Rattle.image.specs.Parts.{parsed, image_blocks, left, Stands, Visits};
ghost use Rattle.image.specs.Laws.{Tiled, Suffices};

use refusal::{Ground, Refusal};

// An image that was judged whole, over its file.
#[derive(Clone, Copy)]
pub struct Image<'a> {
    file: &'a [u8],
    table: [u8; 15],
    start: u16,
}

// The blocks of a file from an offset on, which is told of each block: what is left of the file alone would not have it.
#[derive(Clone, Copy)]
pub struct Blocks<'a> {
    file: &'a [u8],
    offset: usize,
}

// A block: the offset of its first byte in the file, the address that its bytes go to, and the bytes, a part of the file.
#[derive(Clone, Copy)]
pub struct Block<'a> {
    pub offset: usize,
    pub address: u16,
    pub bytes: &'a [u8],
}

// How many bytes of a file suffice to judge it: one more than an image may have.
pub fn enough() -> usize
    ensures { Suffices result }
{
    16385
}

// Whether the first five bytes are the letters DPJ and the version 1.
fn begins_image(file: &[u8]) -> bool
    ensures { result ≡ begins file.now }
{
    file.starts_with(b"DPJ\0\x01")
}

// The block at an offset, if the file has all of it.
fn block_at<'a>(file: &'a [u8], offset: usize) -> Option<Block<'a>>
    ensures { Stands result file.now offset }
{
    let [a, b, c, d, rest @ ..] = file.get(offset..)? else {
        return None;
    };
    let address = u16::from_be_bytes([*a, *b]);
    let size = u16::from_be_bytes([*c, *d]) as usize;
    Some(Block {
        offset,
        address,
        bytes: rest.get(..size)?,
    })
}

// Where the blocks end: at the end of the file, or at the first that is incomplete. It asks for the blocks itself, since the iterator would have to say of each how the end depends on it.
fn end_of_blocks(file: &[u8]) -> usize
    requires { 22 ≤ length file.now }
    ensures end { result ≡ blocks_end file.now 22 }
    ensures within { result ≤ length file.now }
{
    let mut at = 22;
    while let Some(block) = block_at(file, at) {
        at += 4 + block.bytes.len();
    }
    at
}

impl<'a> Image<'a> {
    // Judges the whole file: 1 at 16,384, 2 at 0, then 3 at the first offset of what is incomplete.
    pub fn read(file: &'a [u8]) -> Result<Image<'a>, Refusal>
        ensures answer { parsed result ≡ image_of file.now }
        ensures tiled { Tiled (parsed result) file.now }
    {
        if file.len() > 16384 {
            return Err(Ground::WrongLength.at(16384));
        }
        if !begins_image(file) {
            return Err(Ground::NoImage.at(0));
        }
        if file.len() < 20 {
            return Err(Ground::Incomplete.at(5));
        }
        if file.len() < 22 {
            return Err(Ground::Incomplete.at(20));
        }
        let end = end_of_blocks(file);
        if end < file.len() {
            return Err(Ground::Incomplete.at(end as u32));
        }
        let mut table = [0; 15];
        table.copy_from_slice(&file[5..20]);
        let start = u16::from_be_bytes([file[20], file[21]]);
        Ok(Image { file, table, start })
    }

    pub fn table(&self) -> [u8; 15]
        ensures { result ≡ self.now.table }
    {
        self.table
    }

    pub fn start(&self) -> u16
        ensures { result ≡ self.now.start }
    {
        self.start
    }

    // All blocks, in the order of the file.
    pub fn blocks(&self) -> Blocks<'a>
        ensures { left result ≡ image_blocks self.now }
    {
        Blocks {
            file: self.file,
            offset: 22,
        }
    }
}

// The blocks that are left, one after the other.
impl<'a> Iterator for Blocks<'a> {
    type Item = Block<'a>;

    ghost next_gives = { λ before given after. Visits given (left before) (left after) };

    ghost remaining = { λ blocks. at_most (length (left blocks)) };

    fn next(&mut self) -> Option<Block<'a>> {
        let block = block_at(self.file, self.offset)?;
        self.offset += 4 + block.bytes.len();
        Some(block)
    }
}
