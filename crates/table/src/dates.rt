ghost use Rattle.table.specs.Row.{row_model};
ghost use Rattle.table.specs.Rows.{end_of, start_of};
ghost use Rattle.std.specs.Prelude.{◌≡◌};

use crate::row::Row;

impl Row<'_> {
    /// When the row starts: its first begin, or 0 without parts.
    pub fn start(&self) -> u32
        ensures { result ≡ start_of (row_model self.now) }
    {
        self.parts.first().map_or(0, |part| part.begin)
    }

    /// When the row ends: its last end, or 0 without parts.
    pub fn end(&self) -> u32
        ensures { result ≡ end_of (row_model self.now) }
    {
        self.parts.last().map_or(0, |part| part.end)
    }
}
