ghost use Rattle.table.specs.Alike.{shape_prop};
ghost use Rattle.table.specs.Row.{row_model};
ghost use Rattle.table.specs.Shape.{LawfulShape};

use crate::row::Row;
use problem::problem::Problem;
use problem::task::Task;

/// A task that has a row, with that row and the problem. The row has lawful shape: whoever holds a placed row knows that.
#[derive(Clone, Copy)]
pub struct Placed<'a> {
    pub problem: &'a Problem,
    pub task: Task,
    pub row: Row<'a>,
    ghost shape: { LawfulShape problem.now.dimensions (row_model row) } by { shape_prop problem.now.dimensions (row_model row) },
}
