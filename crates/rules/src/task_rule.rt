//! Rules with a place for each task: place t names task t, and is kept where the task has no row, or one that the rule wants.
ghost use Rattle.std.specs.Prelude.{ℕ, ◌↔◌, IsTrue};
ghost use Rattle.problem.specs.declared.task.Task.{Task as TaskModel};
ghost use Rattle.problem.specs.Limits.{Model};
ghost use Rattle.problem.specs.Model.{model};
ghost use Rattle.rules.specs.EachTask.{of_each_task};
ghost use Rattle.rules.specs.Laws.{each_absence, each_reach};
ghost use Rattle.table.specs.Row.{row_model};
ghost use Rattle.table.specs.Rows.{RowModel};

use crate::each_task;
use crate::judgement::Judgement;
use crate::label::Label;
use crate::rule::Rule;
use problem::problem::Problem;
use table::placed::Placed;
use table::table::Table;

/// A rule that looks at each task's row by itself.
/// It says what it wants of a row; by that `each_task` judges, and answers the other questions of `Rule`. `EachTask` and `EachTaskRef` make it a `Rule`.
pub trait TaskRule {
    /// The number of the rule.
    const NUMBER: u32;

    ghost NUMBER: { ℕ };

    /// What the rule wants of a task's row in a frame.
    ghost wanted: { Self → Model → TaskModel → RowModel → ℕ → Type 0 };

    /// The row is as the rule wants it, whatever the frame.
    fn wants(&self, placed: &Placed<'_>) -> bool
        ensures { (n : ℕ) → (IsTrue result ↔ wanted self.now (model placed.now.problem.now) placed.now.task (row_model placed.now.row) n) };
}

/// A `TaskRule` as a rule that owns it.
#[derive(Clone, Copy, PartialEq, Eq, Debug, Drop)]
pub struct EachTask<R>(pub R);

/// A `TaskRule` as a rule that borrows it, and can be copied as a reference can.
#[derive_where(Clone, Copy)]
#[derive(Drop)]
pub struct EachTaskRef<'a, R>(pub &'a R);

impl<R: TaskRule> Rule for EachTask<R> {
    ghost meaning = { λ r. of_each_task R.NUMBER (R.wanted r.0) };

    ghost reach = { λ r. each_reach R.NUMBER (R.wanted r.0) };

    ghost absence = { λ r. each_absence R.NUMBER (R.wanted r.0) };

    fn count(&self, problem: &Problem) -> u32 {
        EachTaskRef(&self.0).count(problem)
    }

    fn label(&self, problem: &Problem, place: u32) -> Label {
        EachTaskRef(&self.0).label(problem, place)
    }

    fn tasks(&self, problem: &Problem, place: u32) -> [u32; 2] {
        EachTaskRef(&self.0).tasks(problem, place)
    }

    fn judge(&self, table: &Table, place: u32) -> Judgement {
        EachTaskRef(&self.0).judge(table, place)
    }
}

impl<R: TaskRule> Rule for EachTaskRef<'_, R> {
    ghost meaning = { λ r. of_each_task R.NUMBER (R.wanted r.0.now) };

    ghost reach = { λ r. each_reach R.NUMBER (R.wanted r.0.now) };

    ghost absence = { λ r. each_absence R.NUMBER (R.wanted r.0.now) };

    fn count(&self, problem: &Problem) -> u32 {
        each_task::count(problem)
    }

    fn label(&self, problem: &Problem, place: u32) -> Label {
        each_task::label(R::NUMBER, problem, place)
    }

    fn tasks(&self, problem: &Problem, place: u32) -> [u32; 2] {
        each_task::tasks(problem, place)
    }

    fn judge(&self, table: &Table, place: u32) -> Judgement {
        each_task::judge(self.0, table, place)
    }
}
