//! The target that a position may have had before the last move.
ghost use Rattle.std.specs.Prelude.{◌≡◌, ◌⊎◌, ◌↔◌, None, IsTrue};
ghost use Rattle.egt_unmoves.specs.Prelude.{other_side, pawn_of, ahead, HasPawnBeside, Stands, Setup, rank_of};
ghost use Rattle.egt_unmoves.specs.Prelude.{IsTarget, Move, advanced_rank, ComesBy};

use egt_board::{Board, Position, Side, Square};

/// Whether a pawn may have passed this square in the last move, with that side to move now, and a pawn stands ready
/// to take it.
pub(crate) fn is_settled_target(board: &Board, mover: Side, square: Square) -> bool
    ensures { IsTrue result ↔ (IsTarget board.now mover square ×
        HasPawnBeside board.now mover (ahead (other_side mover) square)) }
{
    board.is_target(mover, square) && board.has_pawn_beside(mover, square.ahead(mover.other()))
}

/// The rank, from 0, that a pawn of that side reaches by an advance of two squares.
fn advanced_rank(side: Side) -> u8
    ensures { result ≡ advanced_rank side }
{
    match side {
        Side::White => 3,
        Side::Black => 4,
    }
}

/// Whether a pawn of that side stands on the square, as after an advance of two squares.
fn has_advanced(position: &Position, side: Side, square: Square) -> bool
    ensures { IsTrue result ↔ ((rank_of square ≡ advanced_rank side) × Stands position.now.men square (pawn_of side)) }
{
    square.rank() == advanced_rank(side) && position.at(square) == Some(side.pawn())
}

/// The target that the position before the last move had, where it had one: behind a pawn of the side that is to move
/// now, which had just advanced two squares. Four men leave room for one.
pub(crate) fn target_before(position: &Position) -> Option<Square>
    ensures { (b : Setup) (m : Move) → ComesBy b m position.now → (b.target ≡ None) ⊎ (b.target ≡ result) }
{
    let mover = position.side();
    let mut rest = position.of(mover);
    while let Some(square) = rest.pop_first() {
        if has_advanced(position, mover, square) {
            return Some(square.ahead(mover.other()));
        }
    }
    None
}
