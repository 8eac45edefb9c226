ghost use Rattle.report.specs.Line.{line_of, or_dash};
ghost use Rattle.std.specs.Prelude.{◌≡◌, IfOk, Some, string_bytes};

use crate::refusal::Refusal;
use std::alloc::{AllocError, Global};
use std::fmt;

/// What is said of a flight's files: how many rows are held of how many tasks, or why the files are refused.
#[derive(Clone, Copy)]
pub enum Verdict {
    Accepted { rows: usize, tasks: usize },
    Refused(Refusal),
}

/// A number, or `-` where there is none.
#[derive(Clone, Copy)]
struct OrDash(Option<usize>);

impl fmt::Display for OrDash {
    ghost output = { λ x. Some (or_dash x.0) };

    fn fmt<W: fmt::Write>(&self, f: &mut fmt::Formatter<W>) -> fmt::Result {
        match self.0 {
            Some(n) => write!(f, "{n}"),
            None => write!(f, "-"),
        }
    }
}

impl fmt::Display for Verdict {
    ghost output = { λ verdict. Some (line_of verdict) };

    fn fmt<W: fmt::Write>(&self, f: &mut fmt::Formatter<W>) -> fmt::Result {
        match self {
            Verdict::Accepted { rows, tasks } => write!(f, "accepted {rows} {tasks}"),
            Verdict::Refused(refusal) => {
                let number = refusal.number;
                let layer = refusal.layer;
                let position = OrDash(refusal.position);
                let rule = OrDash(refusal.label.map(|label| label.rule as usize));
                let place = OrDash(refusal.label.map(|label| label.place as usize));
                write!(f, "refused {number} {layer} {position} {rule} {place}")
            }
        }
    }
}

impl Verdict {
    /// The verdict's line, without its end.
    pub fn line(&self, heap: Global) -> Result<String, AllocError>
        ensures { IfOk result (λ text. string_bytes text ≡ line_of self.now) }
    {
        format!(in heap; "{self}")
    }
}
