ghost use Rattle.rules.specs.Laws.{each_absence, each_reach};
ghost use Rattle.task_rules.specs.Meanings.{deadline_rule};
ghost use Rattle.task_rules.specs.Wanted.{OnTime};

use problem::problem::Problem;
use rules::each_task;
use rules::judgement::Judgement;
use rules::label::Label;
use rules::rule::Rule;
use rules::task_rule::TaskRule;
use table::placed::Placed;
use table::table::Table;

/// Rule 6. A row ends by its task's deadline, if there is one.
#[derive(Clone, Copy)]
pub struct Deadline;

impl TaskRule for Deadline {
    const NUMBER: u32 = 6;

    ghost NUMBER = { 6 };

    ghost wanted = { λ _ _ task row _. OnTime task row };

    fn wants(&self, placed: &Placed<'_>) -> bool {
        let end = placed.row.end();
        placed.task.deadline.is_none_or(|date| end <= date)
    }
}

impl Rule for Deadline {
    ghost meaning = { λ _. deadline_rule };

    ghost reach = { λ _. each_reach 6 (λ _ task row _. OnTime task row) };

    ghost absence = { λ _. each_absence 6 (λ _ task row _. OnTime task row) };

    fn count(&self, problem: &Problem) -> u32 {
        each_task::count(problem)
    }

    fn label(&self, problem: &Problem, place: u32) -> Label {
        each_task::label(Self::NUMBER, problem, place)
    }

    fn tasks(&self, problem: &Problem, place: u32) -> [u32; 2] {
        each_task::tasks(problem, place)
    }

    fn judge(&self, table: &Table, place: u32) -> Judgement {
        each_task::judge(self, table, place)
    }
}
