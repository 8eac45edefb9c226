/// What is wrong with a file's form.
#[derive(Clone, Copy)]
pub enum FileFault {
    /// The file is shorter than its header, or of another kind.
    Kind,
    /// The frame or a count in the header is outside its limits.
    Count,
    /// An offset differs from the end of what precedes it, or the length from the end of the last section.
    Layout,
}
