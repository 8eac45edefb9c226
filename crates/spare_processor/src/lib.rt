//! A rule from outside the published book: one processor of the flight computer is kept free as a spare.
#![tactic(auto)]

ghost use Rattle.rules.specs.Laws.{each_absence, each_reach};
ghost use Rattle.spare_processor.specs.Spare.{Elsewhere, spare_rule};

use problem::problem::Problem;
use rules::each_task;
use rules::judgement::Judgement;
use rules::label::Label;
use rules::rule::Rule;
use rules::task_rule::TaskRule;
use table::placed::Placed;
use table::table::Table;

/// Rule 100. No row is on the spare processor.
#[derive(Clone, Copy)]
pub struct SpareProcessor {
    pub processor: u32,
}

impl TaskRule for SpareProcessor {
    const NUMBER: u32 = 100;

    ghost NUMBER = { 100 };

    ghost wanted = { λ s _ _ row _. Elsewhere s.processor row };

    fn wants(&self, placed: &Placed<'_>) -> bool {
        placed.row.processor != self.processor
    }
}

impl Rule for SpareProcessor {
    ghost meaning = { λ s. spare_rule s.processor };

    ghost reach = { λ s. each_reach 100 (λ _ _ row _. Elsewhere s.processor row) };

    ghost absence = { λ s. each_absence 100 (λ _ _ row _. Elsewhere s.processor row) };

    fn count(&self, problem: &Problem) -> u32 {
        each_task::count(problem)
    }

    fn label(&self, problem: &Problem, place: u32) -> Label {
        each_task::label(Self::NUMBER, problem, place)
    }

    fn tasks(&self, problem: &Problem, place: u32) -> [u32; 2] {
        each_task::tasks(problem, place)
    }

    fn judge(&self, table: &Table, place: u32) -> Judgement {
        each_task::judge(self, table, place)
    }
}
