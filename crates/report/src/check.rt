ghost use Rattle.opening.specs.Opened.{opened};
ghost use Rattle.report.specs.Line.{line_of};
ghost use Rattle.report.specs.Check.{verdict_of, verdict_on};
ghost use Rattle.std.specs.Prelude.{◌≡◌, true, is_ok, IfOk, string_bytes, MatchResult};

use crate::verdict::Verdict;
use opening::fault::OpenError;
use opening::open;
use problem::problem::Problem;
use std::alloc::{AllocError, Global};

/// The verdict on what opening answered, unless that found no memory.
pub fn verdict_on(opening: Result<Problem, OpenError>) -> Result<Verdict, AllocError>
    ensures { result ≡ verdict_on opening }
{
    match opening {
        Ok(problem) => Ok(Verdict::Accepted {
            rows: 0,
            tasks: problem.dimensions().tasks as usize,
        }),
        Err(OpenError::Refused(fault)) => Ok(Verdict::Refused(fault.into())),
        Err(OpenError::Memory(error)) => Err(error),
    }
}

/// The verdict on the bytes of a problem file. Only a file that is accepted needs memory.
pub fn verdict(heap: Global, problem: &[u8]) -> Result<Verdict, AllocError>
    ensures { MatchResult result (λ v. v ≡ verdict_of (opened problem.now)) (λ _. is_ok (opened problem.now) ≡ true) }
{
    verdict_on(open(heap, problem))
}

/// The line that framecheck prints for the bytes of a problem file.
pub fn line(heap: Global, problem: &[u8]) -> Result<String, AllocError>
    ensures { IfOk result (λ text. string_bytes text ≡ line_of (verdict_of (opened problem.now))) }
{
    verdict(heap, problem)?.line(heap)
}
