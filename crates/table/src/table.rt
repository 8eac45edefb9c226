ghost use Rattle.problem.specs.Model.{model};
ghost use Rattle.table.specs.Shape.{Shaped};
ghost use Rattle.table.specs.Stored.{stored_rows};

use crate::stored::StoredRow;
use problem::problem::Problem;

/// A problem with a row or none for each of its tasks. Every row has lawful shape: whatever holds a table knows that.
#[derive(Drop)]
pub struct Table {
    pub problem: Problem,
    pub(crate) rows: Vec<Option<StoredRow>>,
    ghost shaped: { ∥ Shaped (model problem) (stored_rows rows.items) ∥₁ },
}
