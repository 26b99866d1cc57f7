//! A move backwards, as the position before it.

use egt_board::{Board, Position, Side, Square};

/// A position from which a move led here, and whether a pawn made it.
#[derive(Clone, Copy)]
pub struct Unmove {
    pub before: Position,
    pub pawn: bool,
}

impl Default for Unmove {
    ghost is_default = { λ _. Unit {0} };

    /// The two kings in the corners: what a list holds in the places that are not taken.
    fn default() -> Self {
        let board = Board::of_kings_in_corners();
        let white_king = Square::at(0);
        let black_king = Square::at(63);
        Unmove {
            before: Position::with_kings(board, Side::White, None, white_king, black_king),
            pawn: false,
        }
    }
}
