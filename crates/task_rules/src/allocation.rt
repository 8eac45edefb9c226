ghost use Rattle.rules.specs.Laws.{each_absence, each_reach};
ghost use Rattle.task_rules.specs.Meanings.{allocation_rule};
ghost use Rattle.task_rules.specs.Wanted.{Allocated};

use problem::problem::Problem;
use rules::each_task;
use rules::judgement::Judgement;
use rules::label::Label;
use rules::rule::Rule;
use rules::task_rule::TaskRule;
use table::placed::Placed;
use table::table::Table;

/// Rule 1. A row is on a processor on which its task has a duration.
#[derive(Clone, Copy)]
pub struct Allocation;

impl TaskRule for Allocation {
    const NUMBER: u32 = 1;

    ghost NUMBER = { 1 };

    ghost wanted = { λ _ _ task row _. Allocated task row };

    fn wants(&self, placed: &Placed<'_>) -> bool {
        placed.task.duration_on(placed.row.processor) != 0
    }
}

impl Rule for Allocation {
    ghost meaning = { λ _. allocation_rule };

    ghost reach = { λ _. each_reach 1 (λ _ task row _. Allocated task row) };

    ghost absence = { λ _. each_absence 1 (λ _ task row _. Allocated task row) };

    fn count(&self, problem: &Problem) -> u32 {
        each_task::count(problem)
    }

    fn label(&self, problem: &Problem, place: u32) -> Label {
        each_task::label(Self::NUMBER, problem, place)
    }

    fn tasks(&self, problem: &Problem, place: u32) -> [u32; 2] {
        each_task::tasks(problem, place)
    }

    fn judge(&self, table: &Table, place: u32) -> Judgement {
        each_task::judge(self, table, place)
    }
}
