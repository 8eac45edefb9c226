ghost use Rattle.problem_file.specs.Layout.{CountsFit};

use crate::counts::Counts;

/// A header whose numbers are within their limits.
#[derive(Clone, Copy)]
pub struct Header {
    pub counts: Counts,
    ghost fit: { CountsFit counts },
}
