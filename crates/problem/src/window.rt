ghost use Rattle.problem.specs.Limits.{Follows, WindowFits};
ghost use Rattle.std.specs.Prelude.{◌↔◌, IsTrue};

use crate::dimensions::Dimensions;

/// The ticks from `begin` up to, not including, `end` of each frame, in which a processor serves a partition.
#[derive(Clone, Copy)]
pub struct Window {
    pub processor: u32,
    pub partition: u32,
    pub begin: u32,
    pub end: u32,
}

impl Window {
    /// Every field of the window is in its range.
    pub fn fits(&self, dimensions: &Dimensions) -> bool
        ensures { IsTrue result ↔ WindowFits dimensions.now self.now }
    {
        self.processor < dimensions.processors
            && self.partition < dimensions.partitions
            && self.begin < self.end
            && self.end <= dimensions.frame
    }

    /// The window may stand right after `before` in the list.
    pub fn follows(&self, before: &Window) -> bool
        ensures { IsTrue result ↔ Follows before.now self.now }
    {
        (before.processor, before.end) <= (self.processor, self.begin)
    }
}
