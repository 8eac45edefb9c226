ghost use Rattle.problem.specs.Limits.{DeadlineFits, DurationsFit, TaskFits};
ghost use Rattle.std.specs.Prelude.{◌↔◌, IsTrue};

use crate::dimensions::Dimensions;

/// A task, with its duration on each processor; the places past the last processor hold 0.
#[derive(Clone, Copy)]
pub struct Task {
    pub partition: u32,
    pub whole: bool,
    pub release: u32,
    pub deadline: Option<u32>,
    pub durations: [u32; 4],
}

/// The deadline lies within four frames, or there is none.
fn deadline_fits(deadline: Option<u32>, frame: u32) -> bool
    ensures { IsTrue result ↔ DeadlineFits frame deadline }
{
    deadline.is_none_or(|date| 1 <= date && u64::from(date) <= 4 * u64::from(frame))
}

/// No duration exceeds the frame, and none is given for a processor that is not there.
fn durations_fit(durations: &[u32; 4], dimensions: &Dimensions) -> bool
    ensures { IsTrue result ↔ DurationsFit dimensions.now durations.now }
{
    let mut by_processor = durations.iter().enumerate();
    by_processor.all(|(processor, duration)| *duration <= dimensions.longest_duration(processor))
}

impl Task {
    /// Every field of the task is in its range.
    pub fn fits(&self, dimensions: &Dimensions) -> bool
        ensures { IsTrue result ↔ TaskFits dimensions.now self.now }
    {
        self.partition < dimensions.partitions
            && u64::from(self.release) <= 3 * u64::from(dimensions.frame)
            && deadline_fits(self.deadline, dimensions.frame)
            && durations_fit(&self.durations, dimensions)
    }
}
