//! Checkmate, stalemate, or neither.

/// How the side to move stands: FIDE Laws of Chess 2023, articles 5.1.1 and 5.2.1.
#[derive(Clone, Copy, Debug, PartialEq, Eq)]
pub enum Standing {
    /// No legal move, and the king is in check.
    Checkmate,
    /// No legal move, and the king is not in check.
    Stalemate,
    /// Some move is legal.
    HasMove,
}
