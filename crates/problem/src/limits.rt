ghost use Rattle.problem.specs.Limits.{Within};
ghost use Rattle.problem.specs.Model.{model};
ghost use Rattle.std.specs.Prelude.{◌≡◌};

use crate::dimensions::Dimensions;
use crate::problem::Problem;

impl Problem {
    /// The problem's dimensions. The contract hands over what the type keeps: the problem is within its limits.
    pub fn dimensions(&self) -> Dimensions
        ensures value { result ≡ self.now.dimensions }
        ensures within { Within (model self.now) }
    {
        self.dimensions
    }
}
