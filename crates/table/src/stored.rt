ghost use Rattle.std.specs.Prelude.{◌≡◌, ◌<◌, length, MatchResult};
ghost use Rattle.table.specs.declared.fault.PutFault.TheVariants.{UnlawfulShape};
ghost use Rattle.table.specs.Row.{row_model};
ghost use Rattle.table.specs.Stored.{stored_row};

use crate::fault::PutFault;
use crate::part::Part;
use crate::row::Row;
use arrayvec::ArrayVec;

/// A row as a table keeps it, with room for the parts in the value itself.
#[derive(Clone, Drop)]
pub(crate) struct StoredRow {
    pub(crate) processor: u32,
    pub(crate) parts: ArrayVec<Part, 4>,
}

/// A copy of a row, which has not lawful shape where it has more than four parts.
impl TryFrom<Row<'_>> for StoredRow {
    type Error = PutFault;

    ghost try_from_gives = { λ row r. MatchResult r (λ stored. stored_row stored ≡ row_model row) (λ fault. (4 < length row.parts.now) × (fault ≡ UnlawfulShape)) };

    fn try_from(row: Row<'_>) -> Result<StoredRow, PutFault> {
        let parts = ArrayVec::try_from(row.parts).map_err(|_| PutFault::UnlawfulShape)?;
        Ok(StoredRow {
            processor: row.processor,
            parts,
        })
    }
}
