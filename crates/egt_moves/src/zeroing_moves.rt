//! Captures and moves of pawns.
ghost use Rattle.std.specs.Prelude.{◌↔◌, IsTrue};
ghost use Rattle.egt_moves.specs.Prelude.{other_side, IsOccupiedBy, Zeroes, IsPawnOn};

use crate::chess_move::Move;
use egt_board::{Kind, Position, Square};

/// Whether an enemy of the side to move stands on the square.
fn is_held_by_enemy(position: &Position, square: Square) -> bool
    ensures { IsTrue result ↔ IsOccupiedBy position.now.men square (other_side position.now.side) }
{
    match position.at(square) {
        Some(man) => man.side == position.side().other(),
        None => false,
    }
}

/// Whether a pawn stands on the square.
fn is_pawn_on(position: &Position, square: Square) -> bool
    ensures { IsTrue result ↔ IsPawnOn position.now.men square }
{
    match position.at(square) {
        Some(man) => man.kind == Kind::P,
        None => false,
    }
}

/// Whether the move zeroes: the man on `from` is a pawn, or `to` holds an enemy man (FIDE Laws of Chess 2023,
/// article 9.3: the count of moves begins anew).
pub fn zeroing(position: &Position, chess_move: Move) -> bool
    ensures { IsTrue result ↔ Zeroes position.now chess_move }
{
    is_held_by_enemy(position, chess_move.to) || is_pawn_on(position, chess_move.from)
}
