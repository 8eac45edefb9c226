ghost use Rattle.rules.specs.Laws.{each_absence, each_reach};
ghost use Rattle.task_rules.specs.Meanings.{release_rule};
ghost use Rattle.task_rules.specs.Wanted.{Released};

use problem::problem::Problem;
use rules::each_task;
use rules::judgement::Judgement;
use rules::label::Label;
use rules::rule::Rule;
use rules::task_rule::TaskRule;
use table::placed::Placed;
use table::table::Table;

/// Rule 5. A row starts at its task's release or later.
#[derive(Clone, Copy)]
pub struct Release;

impl TaskRule for Release {
    const NUMBER: u32 = 5;

    ghost NUMBER = { 5 };

    ghost wanted = { λ _ _ task row _. Released task row };

    fn wants(&self, placed: &Placed<'_>) -> bool {
        placed.task.release <= placed.row.start()
    }
}

impl Rule for Release {
    ghost meaning = { λ _. release_rule };

    ghost reach = { λ _. each_reach 5 (λ _ task row _. Released task row) };

    ghost absence = { λ _. each_absence 5 (λ _ task row _. Released task row) };

    fn count(&self, problem: &Problem) -> u32 {
        each_task::count(problem)
    }

    fn label(&self, problem: &Problem, place: u32) -> Label {
        each_task::label(Self::NUMBER, problem, place)
    }

    fn tasks(&self, problem: &Problem, place: u32) -> [u32; 2] {
        each_task::tasks(problem, place)
    }

    fn judge(&self, table: &Table, place: u32) -> Judgement {
        each_task::judge(self, table, place)
    }
}
