// A fill: when it is refused, and where its bytes go.
ghost use Rattle.std.specs.Prelude.{◌≡◌, ℕ, ◌+◌, ◌<◌, ◌≤◌, Bool, length};
ghost use Rattle.boards.specs.Fills.{judged_fill, placed};

use refusal::{Ground, Refusal};

// `right` says that the buffer has its length, `closed` that the page takes no fill.
pub(crate) fn judge(right: bool, closed: bool, offset: u16, bytes: &[u8]) -> Result<(), Refusal>
    ensures { result ≡ judged_fill right closed offset (length bytes.now) }
{
    if !right {
        return Err(Ground::WrongLength.at(0));
    }
    if offset as usize + bytes.len() > 4096 {
        return Err(Ground::OutOfRange.at(offset as u32));
    }
    if closed && bytes.len() > 0 {
        return Err(Ground::NoWrites.at(offset as u32));
    }
    Ok(())
}

// Puts the bytes from a place of the buffer on. With no bytes the place may lie past the end.
pub(crate) fn place(buffer: &mut [u8], at: usize, bytes: &[u8])
    requires { 0 < length bytes.now → at + length bytes.now ≤ length buffer.old }
    ensures { buffer.new ≡ placed buffer.old at bytes.now }
{
    if !bytes.is_empty() {
        buffer[at..at + bytes.len()].copy_from_slice(bytes);
    }
}
