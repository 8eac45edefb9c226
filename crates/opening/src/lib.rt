//! A problem from the bytes of a problem file: granted, or refused by the first of its faults.
#![tactic(auto)]

ghost use Rattle.opening.specs.Opened.{opened, records_fault};
ghost use Rattle.opening.specs.Promise.{HoldsRecords, OpensEncodings, Outcome};
ghost use Rattle.std.specs.Prelude.{◌≡◌};
ghost use Rattle.std.specs.Result.{result_err};

pub mod fault;
mod fields;
mod order;
mod range;
mod statement;

use crate::fault::{OpenError, ProblemFault};
use crate::fields::check_fields;
use crate::order::check_order;
use crate::statement::Statement;
use problem::problem::Problem;
use problem_file::file::ProblemFile;
use std::alloc::Global;

/// The checks of the records: their order counts only where every field is in its range.
fn check_records(file: ProblemFile<'_>) -> Result<(), ProblemFault>
    ensures { result_err result ≡ records_fault file.entry.header.counts file.entry.bytes.now }
{
    check_fields(file)?;
    check_order(file)
}

/// The problem that the file states, or the first of its faults. Only a file without faults needs memory.
pub fn open(heap: Global, file: &[u8]) -> Result<Problem, OpenError>
    ensures outcome { Outcome (opened file.now) result }
    ensures encodings { OpensEncodings file.now result }
    ensures records { HoldsRecords file.now result }
{
    let file = ProblemFile::read(file)?;
    check_records(file)?;
    Ok(Statement::gather(heap, file)?.into_problem())
}
