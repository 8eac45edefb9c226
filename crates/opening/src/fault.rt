ghost use Rattle.opening.specs.declared.fault.Fault.TheVariants.{File, Problem};
ghost use Rattle.opening.specs.declared.fault.OpenError.TheVariants.{Memory, Refused as RefusedBy};
ghost use Rattle.std.specs.Prelude.{◌≡◌};

use problem_file::fault::FileFault;
use std::alloc::AllocError;

/// What is wrong with a problem's records, which are counted from 0 through all sections.
#[derive(Clone, Copy)]
pub enum ProblemFault {
    /// The lowest record with a field outside its range.
    Field { record: usize },
    /// The lowest window that is out of order or overlaps the one before it.
    Order { record: usize },
}

/// Why a problem file is refused.
#[derive(Clone, Copy)]
pub enum Fault {
    File(FileFault),
    Problem(ProblemFault),
}

/// Why opening gives no problem.
#[derive(Clone, Copy)]
pub enum OpenError {
    Refused(Fault),
    Memory(AllocError),
}

impl From<FileFault> for OpenError {
    ghost from_gives = { λ fault r. r ≡ RefusedBy (File fault) };

    fn from(fault: FileFault) -> OpenError {
        OpenError::Refused(Fault::File(fault))
    }
}

impl From<ProblemFault> for OpenError {
    ghost from_gives = { λ fault r. r ≡ RefusedBy (Problem fault) };

    fn from(fault: ProblemFault) -> OpenError {
        OpenError::Refused(Fault::Problem(fault))
    }
}

impl From<AllocError> for OpenError {
    ghost from_gives = { λ error r. r ≡ Memory error };

    fn from(error: AllocError) -> OpenError {
        OpenError::Memory(error)
    }
}
