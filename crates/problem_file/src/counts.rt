ghost use Rattle.problem_file.specs.Layout.{CountsFit};
ghost use Rattle.std.specs.Prelude.{◌↔◌, IsTrue};

use problem::dimensions::Dimensions;

/// The numbers that a header states: the problem's dimensions, and how many windows, dependencies and exclusions it lists.
#[derive(Clone, Copy)]
pub struct Counts {
    pub dimensions: Dimensions,
    pub windows: u32,
    pub dependencies: u32,
    pub exclusions: u32,
}

impl Counts {
    /// The frame and every count are within their limits.
    pub(crate) fn fit(&self) -> bool
        ensures { IsTrue result ↔ CountsFit self.now }
    {
        self.dimensions.fit()
            && self.windows <= 64
            && self.dependencies <= 256
            && self.exclusions <= 128
    }
}
