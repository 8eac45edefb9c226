ghost use Rattle.rules.specs.Laws.{each_absence, each_reach};
ghost use Rattle.task_rules.specs.Meanings.{whole_rule};
ghost use Rattle.task_rules.specs.Wanted.{Unsplit};

use problem::problem::Problem;
use rules::each_task;
use rules::judgement::Judgement;
use rules::label::Label;
use rules::rule::Rule;
use rules::task_rule::TaskRule;
use table::placed::Placed;
use table::table::Table;

/// Rule 3. The row of a task that is marked whole has one part.
#[derive(Clone, Copy)]
pub struct Whole;

impl TaskRule for Whole {
    const NUMBER: u32 = 3;

    ghost NUMBER = { 3 };

    ghost wanted = { λ _ _ task row _. Unsplit task row };

    fn wants(&self, placed: &Placed<'_>) -> bool {
        !placed.task.whole || placed.row.parts.len() == 1
    }
}

impl Rule for Whole {
    ghost meaning = { λ _. whole_rule };

    ghost reach = { λ _. each_reach 3 (λ _ task row _. Unsplit task row) };

    ghost absence = { λ _. each_absence 3 (λ _ task row _. Unsplit task row) };

    fn count(&self, problem: &Problem) -> u32 {
        each_task::count(problem)
    }

    fn label(&self, problem: &Problem, place: u32) -> Label {
        each_task::label(Self::NUMBER, problem, place)
    }

    fn tasks(&self, problem: &Problem, place: u32) -> [u32; 2] {
        each_task::tasks(problem, place)
    }

    fn judge(&self, table: &Table, place: u32) -> Judgement {
        each_task::judge(self, table, place)
    }
}
