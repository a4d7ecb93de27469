// What a board shows as a memory, and what takes writes.
ghost use Rattle.std.specs.Prelude.{◌≡◌, ℕ, ◌*◌, true, slice_set};
ghost use Rattle.memory.specs.Memories.{page_at, write_answer, stored};
ghost use Rattle.boards.specs.Boards.{lengths_right, board_mem, shows, written};

use super::board::{Board, bytes_in};
use memory::Memory;
use memory::page::Page;
use refusal::{Ground, Refusal};

const SIZE: usize = 65536;

impl<const PAGES: u8> Board<'_, '_, PAGES> {
    // Whether both buffers have their length. Of sixteen pages there is no other buffer, and none is asked for its length: a step asks at each byte.
    fn right(&self) -> bool
        ensures { result ≡ lengths_right PAGES self.now.lower.now self.now.upper.now }
    {
        self.lower.len() == bytes_in(PAGES)
            && (PAGES == 16 || self.lower.len() + self.upper.len() == SIZE)
    }

    // Puts a byte into a page that takes writes.
    fn put(&mut self, at: u16, b: u8)
        requires { (shows self.old).takes (page_at at) ≡ true }
        ensures after { shows self.new ≡ stored (shows self.old) at b }
        ensures bytes { self.new.lower.now ≡ slice_set self.old.lower.now at b }
    {
        self.lower[at as usize] = b;
    }
}

impl<'a, 'b, const PAGES: u8> Memory for Board<'a, 'b, PAGES> {
    ghost mem = { λ b. shows b };

    fn read(&self, at: u16) -> u8 {
        if !self.right() {
            return 0;
        }
        let at = at as usize;
        match at.checked_sub(self.lower.len()) {
            None => self.lower[at],
            Some(beyond) => self.upper[beyond],
        }
    }

    // If either buffer has another length, the one for writing is left as it is, though nothing of it is shown.
    fn write(&mut self, at: u16, b: u8) -> Result<(), Refusal>
        ensures answer { result ≡ write_answer (shows self.old) at }
        ensures after { shows self.new ≡ stored (shows self.old) at b }
        ensures bytes { self.new.lower.now ≡ written (shows self.old) self.old.lower.now at b }
    {
        if !self.takes_writes(Page::of(at)) {
            return Err(Ground::NoWrites.at(at as u32));
        }
        self.put(at, b);
        Ok(())
    }

    fn takes_writes(&self, page: Page) -> bool {
        self.right() && page.number() < PAGES && !self.sealed.has(page)
    }
}
