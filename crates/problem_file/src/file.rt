ghost use Rattle.problem_file.specs.Layout.{file_end};
ghost use Rattle.std.specs.Prelude.{◌≡◌, length};

use crate::header::Header;

/// A problem file whose form is right: its bytes end where its header says.
#[derive(Clone, Copy)]
pub struct ProblemFile<'a> {
    pub bytes: &'a [u8],
    pub header: Header,
    ghost whole: { length bytes.now ≡ file_end header.counts },
}
