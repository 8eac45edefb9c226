ghost use Rattle.report.specs.Refusals.{letter, refusal_of};
ghost use Rattle.std.specs.Prelude.{◌≡◌, Some};

use opening::fault::{Fault, ProblemFault};
use problem_file::fault::FileFault;
use rules::label::Label;
use std::fmt;

/// The layer that a fault belongs to.
#[derive(Clone, Copy)]
pub enum Layer {
    File,
    Problem,
}

impl fmt::Display for Layer {
    ghost output = { λ layer. Some (letter layer) };

    fn fmt<W: fmt::Write>(&self, f: &mut fmt::Formatter<W>) -> fmt::Result {
        match self {
            Layer::File => write!(f, "F"),
            Layer::Problem => write!(f, "P"),
        }
    }
}

/// A fault as it is reported.
#[derive(Clone, Copy)]
pub struct Refusal {
    pub number: u32,
    pub layer: Layer,
    pub position: Option<usize>,
    pub label: Option<Label>,
}

impl From<Fault> for Refusal {
    ghost from_gives = { λ fault r. r ≡ refusal_of fault };

    fn from(fault: Fault) -> Refusal {
        let (number, layer, position) = match fault {
            Fault::File(FileFault::Kind) => (1, Layer::File, None),
            Fault::File(FileFault::Count) => (2, Layer::File, None),
            Fault::File(FileFault::Layout) => (3, Layer::File, None),
            Fault::Problem(ProblemFault::Field { record }) => (4, Layer::Problem, Some(record)),
            Fault::Problem(ProblemFault::Order { record }) => (5, Layer::Problem, Some(record)),
        };
        Refusal {
            number,
            layer,
            position,
            label: None,
        }
    }
}
