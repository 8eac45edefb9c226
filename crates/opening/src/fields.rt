ghost use Rattle.opening.specs.Opened.{field_fault};
ghost use Rattle.std.specs.Prelude.{◌≡◌};
ghost use Rattle.std.specs.Result.{result_err};

use crate::fault::ProblemFault;
use crate::range::in_range;
use problem_file::file::ProblemFile;

/// Check 4: the fault is that of the lowest record with a field outside its range.
pub(crate) fn check_fields(file: ProblemFile<'_>) -> Result<(), ProblemFault>
    ensures { result_err result ≡ field_fault file.entry.header.counts file.entry.bytes.now }
{
    let dimensions = file.header.counts.dimensions;
    // Said with the trait's name, since a reader's own `position` is where it stands.
    let first_misfit = Iterator::position(&mut file.records(), |read| {
        !in_range(&read, &dimensions)
    });
    match first_misfit {
        Some(record) => Err(ProblemFault::Field { record }),
        None => Ok(()),
    }
}
