// A table of which it is known that no page is named twice.
ghost use Rattle.std.specs.Prelude.{ℕ};
ghost use Rattle.table.specs.Tables.{Apart};

// An entry for each of sectors 0 to 14. No two with access name one page.
#[derive(Clone, Copy)]
pub struct Table {
    pub entries: [u8; 15],
    ghost apart: { Apart entries },
}
