ghost use Rattle.std.specs.Prelude.{ℕ, ◌↔◌, IsTrue};
ghost use Rattle.overlap_rule.specs.Instances.{Listed, NeverBoth};
ghost use Rattle.overlap_rule.specs.Search.{AtDistance};
ghost use Rattle.problem.specs.Model.{model};

use problem::exclusion::Exclusion;
use problem::problem::Problem;

/// An exclusion of two tasks at a distance is listed, in this order of the tasks.
fn listed(problem: &Problem, first: u32, second: u32, distance: u32) -> bool
    ensures { IsTrue result ↔ Listed (model problem.now) first second distance }
{
    problem.exclusions.contains(&Exclusion {
        first,
        second,
        distance,
    })
}

/// An exclusion says that an instance of `first` and the instance of `second` at the distance never both run, whichever of the two it names first.
pub(crate) fn never_both(problem: &Problem, first: u32, second: u32, distance: i8) -> bool
    ensures { (n m : ℕ) → AtDistance n m distance → (IsTrue result ↔ NeverBoth (model problem.now) first n second m) }
{
    let frames = u32::from(distance.unsigned_abs());
    distance <= 0 && listed(problem, second, first, frames)
        || distance >= 0 && listed(problem, first, second, frames)
}
