//! The status with which a run ends.

/// The status of a run.
#[derive(Clone, Copy, Debug, PartialEq, Eq)]
pub enum Status {
    /// All was done.
    Done = 0,
    /// The input or a table was refused.
    Refused = 1,
    /// The words are no use of the program.
    Usage = 2,
    /// A file or a stream failed.
    Device = 3,
    /// Memory was refused.
    Memory = 4,
}
