/// Why a row is not put in.
#[derive(Clone, Copy, PartialEq, Eq, Debug)]
pub enum PutFault {
    /// The problem has no such task.
    UnknownTask,
    /// The row has not lawful shape.
    UnlawfulShape,
}
