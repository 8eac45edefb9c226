ghost use Rattle.piles.specs.Confinement.{Inside as IsInside};

use crate::scope::Scope;
use crate::scoped::Scoped;
use problem::problem::Problem;
use rules::rule::Rule;

/// A rule that counts inside one partition only.
pub type Confinement<R> = Scoped<R, Inside>;

/// The places of which all tasks are in the partition.
#[derive(Clone, Copy)]
pub struct Inside {
    pub partition: u32,
}

impl Scope for Inside {
    ghost Covers = { λ s. IsInside s.partition };

    fn covers<R: Rule>(&self, rule: &R, problem: &Problem, place: u32) -> bool {
        let tasks = rule.tasks(problem, place);
        tasks.iter().all(|number| {
            problem
                .task(*number)
                .is_some_and(|task| task.partition == self.partition)
        })
    }
}
