ghost use Rattle.problem.specs.Limits.{DimensionsFit};
ghost use Rattle.std.specs.Prelude.{◌≡◌, ◌↔◌, ◌<◌, ◌≤◌, IsTrue};

/// What the records of a problem are measured by: the ticks of the major time frame, and how many processors, partitions and tasks there are.
#[derive(Clone, Copy)]
pub struct Dimensions {
    pub frame: u32,
    pub processors: u32,
    pub partitions: u32,
    pub tasks: u32,
}

impl Dimensions {
    /// Each of the four is within its limits.
    pub fn fit(&self) -> bool
        ensures { IsTrue result ↔ DimensionsFit self.now }
    {
        (1..=1_000_000).contains(&self.frame)
            && (1..=4).contains(&self.processors)
            && (1..=8).contains(&self.partitions)
            && (1..=64).contains(&self.tasks)
    }

    /// The longest duration that a task may have on a processor: a frame, and 0 past the last processor.
    pub(crate) fn longest_duration(&self, processor: usize) -> u32
        ensures given { processor < self.now.processors → result ≡ self.now.frame }
        ensures unused { self.now.processors ≤ processor → result ≡ 0 }
    {
        if processor < self.processors as usize {
            self.frame
        } else {
            0
        }
    }
}
