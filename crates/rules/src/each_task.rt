//! What rules with a place for each task have in common: place t names task t, and is kept where it has no row, or one that the rule wants.
ghost use Rattle.std.specs.Prelude.{◌≡◌, ◌<◌, ◌≤◌, All};
ghost use Rattle.problem.specs.Model.{model};
ghost use Rattle.rules.specs.EachTask.{labelled, named, of_each_task};
ghost use Rattle.rules.specs.Judged.{Judged};
ghost use Rattle.table.specs.Table.{problem_of, rows_of};

use crate::judgement::Judgement;
use crate::label::Label;
use crate::task_rule::TaskRule;
use problem::problem::Problem;
use table::table::Table;

/// A place for each task.
pub fn count(problem: &Problem) -> u32
    ensures value { result ≡ problem.now.dimensions.tasks }
    ensures limit { result ≤ 65537 }
{
    problem.dimensions().tasks
}

/// The rule's number and the task's.
pub fn label(rule: u32, problem: &Problem, place: u32) -> Label
    ensures { result ≡ labelled rule (model problem.now) place }
{
    Label::of(rule, place, count(problem))
}

/// The task, twice.
pub fn tasks(problem: &Problem, place: u32) -> [u32; 2]
    ensures value { result ≡ named (model problem.now) place }
    ensures known { All (λ t. t < problem.now.dimensions.tasks) result }
{
    if place < problem.dimensions().tasks {
        [place, place]
    } else {
        [0, 0]
    }
}

/// Broken where the task has a row that the rule does not want, and else kept.
pub fn judge<R: TaskRule>(rule: &R, table: &Table, place: u32) -> Judgement
    ensures { Judged (of_each_task R.NUMBER (R.wanted rule.now)) (problem_of table.now) (rows_of table.now) place result }
{
    if table.placed(place).is_none_or(|placed| rule.wants(&placed)) {
        Judgement::Kept
    } else {
        Judgement::Broken
    }
}
