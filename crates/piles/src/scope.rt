ghost use Rattle.std.specs.Prelude.{ℕ, ◌↔◌, IsTrue, List};
ghost use Rattle.problem.specs.Limits.{Model};
ghost use Rattle.problem.specs.Model.{model};
ghost use Rattle.rules.specs.Meaning.{tasks_of};

use problem::problem::Problem;
use rules::rule::Rule;

/// The places at which a rule counts.
pub(crate) trait Scope {
    /// A place that names these tasks is one of them.
    ghost Covers: { Self → Model → ℕ → List ℕ → Type 0 };

    /// The rule counts at the place. Its tasks are asked for only where the scope goes by them.
    fn covers<R: Rule>(&self, rule: &R, problem: &Problem, place: u32) -> bool
        ensures { IsTrue result ↔ Covers self.now (model problem.now) place (tasks_of (R.Rule.meaning rule.now) (model problem.now) place) };
}
