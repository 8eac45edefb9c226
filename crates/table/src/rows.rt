ghost use Rattle.std.specs.Prelude.{◌≡◌, IfOk};
ghost use Rattle.std.specs.Option.{option_map};
ghost use Rattle.table.specs.Placed.{PlacedAt};
ghost use Rattle.table.specs.Put.{Puts, without};
ghost use Rattle.table.specs.Row.{row_model};
ghost use Rattle.table.specs.Rows.{no_rows, row_at};
ghost use Rattle.table.specs.Shape.{Shaped};
ghost use Rattle.table.specs.Table.{problem_of, rows_of};

use crate::fault::PutFault;
use crate::placed::Placed;
use crate::row::Row;
use crate::stored::StoredRow;
use crate::table::Table;
use problem::problem::Problem;
use std::alloc::{AllocError, Global};

impl Table {
    /// A table of the problem in which no task has a row.
    pub fn empty(heap: Global, problem: Problem) -> Result<Table, AllocError>
        ensures { IfOk result (λ t. (t.problem ≡ problem) × (rows_of t ≡ no_rows (problem_of t))) }
    {
        let tasks = problem.dimensions.tasks as usize;
        let rows = vec![in heap; None; tasks]?;
        Ok(Table { problem, rows })
    }

    /// The row of a task, or nothing where it has none. The contract hands over what the type keeps: the table has lawful shape.
    pub fn row(&self, task: u32) -> Option<Row<'_>>
        ensures value { option_map row_model result ≡ row_at (rows_of self.now) task }
        ensures shaped { Shaped (problem_of self.now) (rows_of self.now) }
    {
        let stored = self.rows.get(task as usize)?.as_ref()?;
        Some(Row {
            processor: stored.processor,
            parts: stored.parts.as_slice(),
        })
    }

    /// A task with its row, or nothing where it has none.
    pub fn placed(&self, task: u32) -> Option<Placed<'_>>
        ensures { PlacedAt (problem_of self.now) (rows_of self.now) task result }
    {
        let row = self.row(task)?;
        let task = self.problem.task(task)?;
        Some(Placed {
            problem: &self.problem,
            task,
            row,
        })
    }

    /// Gives a task the row in place of any that it has. Changes nothing where the problem has no such task, or else the row has not lawful shape.
    pub fn put(&mut self, task: u32, row: Row<'_>) -> Result<(), PutFault>
        ensures rows { Puts (problem_of self.old) (rows_of self.old) task (row_model row.entry) result (rows_of self.new) }
        ensures problem { self.new.problem ≡ self.old.problem }
    {
        let dimensions = self.problem.dimensions;
        if task >= dimensions.tasks {
            return Err(PutFault::UnknownTask);
        }
        if !row.has_lawful_shape(&dimensions) {
            return Err(PutFault::UnlawfulShape);
        }
        let stored = StoredRow::try_from(row)?;
        self.rows[task as usize] = Some(stored);
        Ok(())
    }

    /// Takes a task's row out, if it has one.
    #[tactic(auto, using(crate::proofs::Slots::slots_set))]
    pub fn remove(&mut self, task: u32)
        ensures rows { rows_of self.new ≡ without (rows_of self.old) task }
        ensures problem { self.new.problem ≡ self.old.problem }
    {
        if let Some(kept) = self.rows.get_mut(task as usize) {
            *kept = None;
        }
    }
}
