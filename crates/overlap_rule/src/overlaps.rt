ghost use Rattle.overlap_rule.specs.Overlaps.{overlap_rule};
ghost use Rattle.overlap_rule.specs.Laws.{overlaps_reach, overlaps_absence};

use crate::search::overlap;
use problem::problem::Problem;
use rules::judgement::Judgement;
use rules::label::Label;
use rules::rule::Rule;
use table::table::Table;

/// Rule 8. Two tasks' rows on one processor share no tick in any frame, unless an exclusion says that those instances never both run.
#[derive(Clone, Copy)]
pub struct Overlaps;

impl Rule for Overlaps {
    ghost meaning = { λ _. overlap_rule };

    ghost reach = { λ _. overlaps_reach };

    ghost absence = { λ _. overlaps_absence };

    fn count(&self, problem: &Problem) -> u32 {
        let tasks = problem.dimensions().tasks;
        tasks * tasks
    }

    fn label(&self, problem: &Problem, place: u32) -> Label {
        Label::of(8, place, self.count(problem))
    }

    fn tasks(&self, problem: &Problem, place: u32) -> [u32; 2] {
        let tasks = problem.dimensions.tasks;
        if place < self.count(problem) {
            [place / tasks, place % tasks]
        } else {
            [0, 0]
        }
    }

    fn judge(&self, table: &Table, place: u32) -> Judgement {
        // Past the count both tasks are task 0, so such a place is kept too.
        let [i, j] = self.tasks(&table.problem, place);
        if i >= j {
            return Judgement::Kept;
        }
        match overlap(table, i, j) {
            Some(_) => Judgement::Broken,
            None => Judgement::Kept,
        }
    }
}
