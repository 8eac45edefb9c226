ghost use Rattle.opening.specs.Ranges.{Fits, MarkFits};
ghost use Rattle.problem_file.specs.Records.{shown};
ghost use Rattle.std.specs.Prelude.{◌↔◌, IsTrue};

use problem::dimensions::Dimensions;
use problem_file::record::{Item, Record};

/// The mark that says whether a task is whole is 0 or 1.
fn mark_fits(bytes: &[u8]) -> bool
    ensures { IsTrue result ↔ MarkFits bytes.now }
{
    words::read(bytes, 4).is_some_and(|mark| mark <= 1)
}

/// Every field of the record is in its range.
pub(crate) fn in_range(read: &Record<'_>, dimensions: &Dimensions) -> bool
    ensures { IsTrue result ↔ Fits dimensions.now (shown read.now) }
{
    match &read.item {
        Item::Task(task) => mark_fits(read.bytes) && task.fits(dimensions),
        Item::Window(window) => window.fits(dimensions),
        Item::Dependency(dependency) => dependency.fits(dimensions),
        Item::Exclusion(exclusion) => exclusion.fits(dimensions),
    }
}
