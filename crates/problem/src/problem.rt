ghost use Rattle.problem.specs.Limits.{Within};

use crate::dependency::Dependency;
use crate::dimensions::Dimensions;
use crate::exclusion::Exclusion;
use crate::task::Task;
use crate::window::Window;

/// A problem within its limits: whatever holds one knows that.
#[derive(Drop)]
pub struct Problem {
    pub dimensions: Dimensions,
    pub tasks: Vec<Task>,
    pub windows: Vec<Window>,
    pub dependencies: Vec<Dependency>,
    pub exclusions: Vec<Exclusion>,
    ghost within: { ∥ Within (record { dimensions = dimensions; tasks = tasks.items; windows = windows.items; dependencies = dependencies.items; exclusions = exclusions.items }) ∥₁ },
}
