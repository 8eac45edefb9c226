ghost use Rattle.std.specs.Prelude.{◌↔◌, IsTrue};
ghost use Rattle.table.specs.Row.{row_model};
ghost use Rattle.table.specs.Shape.{InTurn, LawfulShape};

use crate::part::Part;
use crate::row::Row;
use problem::dimensions::Dimensions;

/// Each part begins below its end, and none begins before the previous one ends.
fn in_turn(parts: &[Part]) -> bool
    ensures { IsTrue result ↔ InTurn parts.now }
{
    parts.iter().all(|part| part.begin < part.end)
        && parts.is_sorted_by(|part, next| part.end <= next.begin)
}

impl Row<'_> {
    /// The row has lawful shape for a problem of these dimensions.
    pub fn has_lawful_shape(&self, dimensions: &Dimensions) -> bool
        ensures { IsTrue result ↔ LawfulShape dimensions.now (row_model self.now) }
    {
        let frame = u64::from(dimensions.frame);
        let start = u64::from(self.start());
        let end = u64::from(self.end());
        self.processor < dimensions.processors
            && (1..=4).contains(&self.parts.len())
            && in_turn(self.parts)
            && start < 3 * frame
            && end <= start + frame
    }
}
