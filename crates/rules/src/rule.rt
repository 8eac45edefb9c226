ghost use Rattle.std.specs.Prelude.{◌≡◌, ◌<◌, ◌≤◌, All};
ghost use Rattle.problem.specs.Model.{model};
ghost use Rattle.rules.specs.Judged.{Judged};
ghost use Rattle.rules.specs.Meaning.{Absence, Meaning, Reach, label_of, tasks_of};
ghost use Rattle.table.specs.Table.{problem_of, rows_of};

use crate::judgement::Judgement;
use crate::label::Label;
use problem::problem::Problem;
use table::table::Table;

/// A rule, and so a book of rules: for each problem a number of places, each of which a table keeps or breaks in each frame.
/// What the four questions answer is said once, by `meaning`; asking changes nothing.
pub trait Rule {
    /// What the rule says of every problem.
    ghost meaning: { Self → Meaning };

    /// How many places there are: at most 65,537.
    fn count(&self, problem: &Problem) -> u32
        ensures value { result ≡ (meaning self.now).count (model problem.now) }
        ensures limit { result ≤ 65537 };

    /// The label of a place.
    fn label(&self, problem: &Problem, place: u32) -> Label
        ensures { result ≡ label_of (meaning self.now) (model problem.now) place };

    /// The tasks that a place names: two of the problem's, perhaps one twice.
    fn tasks(&self, problem: &Problem, place: u32) -> [u32; 2]
        ensures value { result ≡ tasks_of (meaning self.now) (model problem.now) place }
        ensures known { All (λ t. t < problem.now.dimensions.tasks) result };

    /// Whether the table keeps a place in every frame or breaks it in some frame.
    fn judge(&self, table: &Table, place: u32) -> Judgement
        ensures { Judged (meaning self.now) (problem_of table.now) (rows_of table.now) place result };

    /// Tables that give the named tasks the same rows agree on the place in every frame.
    ghost reach: { (r : Self) → Reach (meaning r) };

    /// A place that names a task without a row is kept in every frame.
    ghost absence: { (r : Self) → Absence (meaning r) };
}
