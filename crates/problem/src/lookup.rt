ghost use Rattle.problem.specs.Lookup.{dependency_in, duration_on, task_in};
ghost use Rattle.problem.specs.Model.{model};
ghost use Rattle.std.specs.Prelude.{◌≡◌};

use crate::dependency::Dependency;
use crate::problem::Problem;
use crate::task::Task;

impl Problem {
    /// The task of a number, if the problem has one.
    pub fn task(&self, number: u32) -> Option<Task>
        ensures { result ≡ task_in (model self.now) number }
    {
        self.tasks.get(number as usize).copied()
    }

    /// The dependency of a number, if the problem has one.
    pub fn dependency(&self, number: u32) -> Option<Dependency>
        ensures { result ≡ dependency_in (model self.now) number }
    {
        self.dependencies.get(number as usize).copied()
    }
}

impl Task {
    /// The ticks that the task needs on a processor, and 0 on one that the problem lacks.
    pub fn duration_on(&self, processor: u32) -> u32
        ensures { result ≡ duration_on self.now processor }
    {
        self.durations.get(processor as usize).copied().unwrap_or(0)
    }
}
