ghost use Rattle.rules.specs.Laws.{each_absence, each_reach};
ghost use Rattle.task_rules.specs.Meanings.{duration_rule};
ghost use Rattle.task_rules.specs.Wanted.{LongEnough};

use problem::problem::Problem;
use rules::each_task;
use rules::judgement::Judgement;
use rules::label::Label;
use rules::rule::Rule;
use rules::task_rule::TaskRule;
use table::placed::Placed;
use table::table::Table;

/// Rule 2. A row is at least as long as its task's duration on its processor.
#[derive(Clone, Copy)]
pub struct Duration;

impl TaskRule for Duration {
    const NUMBER: u32 = 2;

    ghost NUMBER = { 2 };

    ghost wanted = { λ _ _ task row _. LongEnough task row };

    fn wants(&self, placed: &Placed<'_>) -> bool {
        let ticks: u64 = placed
            .row
            .parts
            .iter()
            .map(|part| u64::from(part.ticks()))
            .sum();
        u64::from(placed.task.duration_on(placed.row.processor)) <= ticks
    }
}

impl Rule for Duration {
    ghost meaning = { λ _. duration_rule };

    ghost reach = { λ _. each_reach 2 (λ _ task row _. LongEnough task row) };

    ghost absence = { λ _. each_absence 2 (λ _ task row _. LongEnough task row) };

    fn count(&self, problem: &Problem) -> u32 {
        each_task::count(problem)
    }

    fn label(&self, problem: &Problem, place: u32) -> Label {
        each_task::label(Self::NUMBER, problem, place)
    }

    fn tasks(&self, problem: &Problem, place: u32) -> [u32; 2] {
        each_task::tasks(problem, place)
    }

    fn judge(&self, table: &Table, place: u32) -> Judgement {
        each_task::judge(self, table, place)
    }
}
