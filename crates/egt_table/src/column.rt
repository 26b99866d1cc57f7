//! Columns of a table, by what their entries tell of a position.

/// A table has one entry a code in each of its columns. The first two are there in each table, the third in some. Files
/// hold the columns in this order.
#[derive(Clone, Copy, Debug, PartialEq, Eq)]
pub enum Column {
    /// The plies to checkmate.
    Mate,
    /// The plies to the capture, move of a pawn or checkmate that comes next.
    Zeroing,
    /// The plies to the nearest checkmate that moves of both sides lead to.
    Reach,
}

impl Column {
    /// All columns in the order of files.
    pub const ALL: [Column; 3] = [Column::Mate, Column::Zeroing, Column::Reach];
}
