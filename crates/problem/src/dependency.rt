ghost use Rattle.problem.specs.Limits.{DependencyFits};
ghost use Rattle.std.specs.Prelude.{◌↔◌, IsTrue};

use crate::dimensions::Dimensions;

/// Instance n of `source` ends, and its data arrives, before instance n + `depth` of `destination` starts.
#[derive(Clone, Copy)]
pub struct Dependency {
    pub source: u32,
    pub destination: u32,
    pub depth: u32,
    pub transfer: u32,
}

impl Dependency {
    /// Every field of the dependency is in its range.
    pub fn fits(&self, dimensions: &Dimensions) -> bool
        ensures { IsTrue result ↔ DependencyFits dimensions.now self.now }
    {
        self.source < dimensions.tasks
            && self.destination < dimensions.tasks
            && self.depth <= 3
            && self.transfer <= dimensions.frame
    }
}
