ghost use Rattle.dependency_rule.specs.Dependencies.{dependency_rule};
ghost use Rattle.dependency_rule.specs.Laws.{dependencies_reach, dependencies_absence};

use crate::link::Link;
use problem::problem::Problem;
use rules::judgement::Judgement;
use rules::label::Label;
use rules::rule::Rule;
use table::table::Table;

/// Rule 7. An instance of a dependency's source ends, and its data arrives, before the destination's instance that waits for it starts.
#[derive(Clone, Copy)]
pub struct Dependencies;

impl Rule for Dependencies {
    ghost meaning = { λ _. dependency_rule };

    ghost reach = { λ _. dependencies_reach };

    ghost absence = { λ _. dependencies_absence };

    fn count(&self, problem: &Problem) -> u32 {
        problem.dependencies.len() as u32
    }

    fn label(&self, problem: &Problem, place: u32) -> Label {
        Label::of(7, place, self.count(problem))
    }

    fn tasks(&self, problem: &Problem, place: u32) -> [u32; 2] {
        match problem.dependency(place) {
            Some(dependency) => [dependency.source, dependency.destination],
            None => [0, 0],
        }
    }

    fn judge(&self, table: &Table, place: u32) -> Judgement {
        match Link::at(table, place) {
            Some(link) if !link.in_order(table.problem.dimensions.frame) => Judgement::Broken,
            _ => Judgement::Kept,
        }
    }
}
