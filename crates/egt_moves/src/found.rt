//! The answer of a search for mate.
use egt_board::Side;

/// What a search for mate tells: the value of a position, if it is decided within the plies that were searched.
#[derive(Clone, Copy, Debug, PartialEq, Eq)]
pub enum Search {
    /// The winner forces checkmate in so many plies against every defence, and in no fewer.
    Mate { winner: Side, plies: u8 },
    /// Neither side forces checkmate within the plies that were searched.
    NotWithin,
}
