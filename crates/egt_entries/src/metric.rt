//! The event to which the plies of wins and losses are counted.

/// An entry of a table's mate column or of its zeroing column is a win or a loss in so many plies, or a draw. The
/// metric tells what the plies are counted to.
#[derive(Clone, Copy, Debug, PartialEq, Eq)]
pub enum Metric {
    /// Checkmate.
    Mate,
    /// The capture, move of a pawn or checkmate that comes next.
    Zeroing,
}
