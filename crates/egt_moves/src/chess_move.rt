//! Moves, as the square left, the square arrived at, and what a pawn becomes.
use egt_board::{Kind, Square};

/// A move: the man on `from` goes to `to`, and `promo` is what a pawn becomes on the last rank.
#[derive(Clone, Copy, Debug, Default, PartialEq, Eq)]
pub struct Move {
    pub from: Square,
    pub to: Square,
    pub promo: Option<Kind>,
}
