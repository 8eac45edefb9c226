ghost use Rattle.opening.specs.Opened.{order_fault, out_of_place, stated};
ghost use Rattle.std.specs.Prelude.{◌≡◌};
ghost use Rattle.std.specs.Result.{result_err};

use crate::fault::ProblemFault;
use problem::window::Window;
use problem_file::file::ProblemFile;
use problem_file::layout::Section;
use problem_file::record::Item;

/// The window may not stand after the one before it.
fn out_of_place(before: Option<Window>, window: &Window) -> bool
    ensures { result ≡ out_of_place before window.now }
{
    before.is_some_and(|before| !window.follows(&before))
}

/// Check 5: the fault is that of the lowest window that may not stand after the one before it.
pub(crate) fn check_order(file: ProblemFile<'_>) -> Result<(), ProblemFault>
    ensures { result_err result ≡ order_fault file.entry.header.counts (stated file.entry.header.counts file.entry.bytes.now).windows }
{
    let first = file.header.first(Section::Windows);
    let mut before = None;
    for (number, record) in file.records_from(Section::Windows).enumerate() {
        let Item::Window(window) = record.item else {
            break;
        };
        if out_of_place(before, &window) {
            return Err(ProblemFault::Order {
                record: first + number,
            });
        }
        before = Some(window);
    }
    Ok(())
}
