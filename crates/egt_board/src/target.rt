//! En passant targets: FIDE Laws of Chess 2023, article 3.7.3.
ghost use Rattle.std.specs.Prelude.{◌≡◌, ◌↔◌, IsTrue};
ghost use Rattle.egt_board.specs.Prelude.{target_rank, IsTarget};

use crate::board::Board;
use crate::man::Side;
use crate::square::Square;

/// The rank of a target with that side to move, from 0: 5 for White, 2 for Black.
fn target_rank(mover: Side) -> u8
    ensures { result ≡ target_rank mover }
{
    match mover {
        Side::White => 5,
        Side::Black => 2,
    }
}

impl Board {
    /// Whether the last move may have been the advance of a pawn by two squares over this one, with that
    /// side to move now.
    pub fn is_target(&self, mover: Side, square: Square) -> bool
        ensures { IsTrue result ↔ IsTarget self.now mover square }
    {
        if square.rank() != target_rank(mover) {
            return false;
        }
        let left = square.ahead(mover);
        let advanced = square.ahead(mover.other());
        self.at(square).is_none()
            && self.at(left).is_none()
            && self.at(advanced) == Some(mover.other().pawn())
    }
}
