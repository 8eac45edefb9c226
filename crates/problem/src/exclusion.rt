ghost use Rattle.problem.specs.Limits.{ExclusionFits};
ghost use Rattle.std.specs.Prelude.{◌↔◌, IsTrue};

use crate::dimensions::Dimensions;

/// Instance n of `first` and instance n + `distance` of `second` never both run.
#[derive(Clone, Copy, PartialEq, Eq)]
pub struct Exclusion {
    pub first: u32,
    pub second: u32,
    pub distance: u32,
}

impl Exclusion {
    /// Every field of the exclusion is in its range, and its tasks are two.
    pub fn fits(&self, dimensions: &Dimensions) -> bool
        ensures { IsTrue result ↔ ExclusionFits dimensions.now self.now }
    {
        self.first < dimensions.tasks
            && self.second < dimensions.tasks
            && self.first != self.second
            && self.distance <= 3
    }
}
