//! Where a man may go, and the board after it has gone there.
ghost use Rattle.std.specs.Prelude.{◌≡◌, ℕ, ◌≤◌, ◌↔◌, ◌⊎◌, IsTrue, Some};
ghost use Rattle.egt_moves.specs.Prelude.{IsInCheck, IsOccupancy, Stands, IsOccupiedBy, IsAdmissible, IsKingOn, Has};
ghost use Rattle.egt_moves.specs.Prelude.{other_side, P, Goes, PieceGoes, PawnTakes, men_after, men_left, size_of};
ghost use Rattle.egt_moves.specs.Prelude.{takes_in_passing, passed, plain, most_goals};

use crate::chess_move::Move;
use crate::promotion::arriving;
use egt_board::{Board, Kind, Man, Occupancy, Position, Square, SquareSet};

/// The squares that a piece or king on `from` may go to where its king is left aside.
fn piece_targets(position: &Position, occupancy: Occupancy, man: Man, from: Square) -> SquareSet
    requires occupancy { IsOccupancy position.now occupancy }
    requires mine { man.side ≡ position.now.side }
    requires piece { man.kind ≡ P → ⊥ }
    ensures goes { (t : ℕ) → Has result t ↔ PieceGoes position.now man from t }
    ensures few { size_of result ≤ most_goals man.kind }
{
    position
        .board()
        .reach_past(man, from, occupancy.occupied())
        .difference(occupancy.own)
}

/// The squares that an enemy man holds or a pawn has just passed.
fn takeable(position: &Position, occupancy: Occupancy) -> SquareSet
    requires { IsOccupancy position.now occupancy }
    ensures { (t : ℕ) → Has result t ↔ (IsOccupiedBy position.now.men t (other_side position.now.side) ⊎
        (position.now.target ≡ Some t)) }
{
    match position.target() {
        Some(target) => occupancy.enemy.with(target),
        None => occupancy.enemy,
    }
}

/// The squares that a pawn on `from` may go to where its king is left aside.
fn pawn_targets(position: &Position, occupancy: Occupancy, man: Man, from: Square) -> SquareSet
    requires occupancy { IsOccupancy position.now occupancy }
    requires mine { man.side ≡ position.now.side }
    requires pawn { man.kind ≡ P }
    ensures goes { (t : ℕ) → Has result t ↔ Goes position.now man from t }
    ensures few { size_of result ≤ 4 }
{
    let advances = position.board().advances(man.side, from);
    let takes = position
        .board()
        .reach_past(man, from, occupancy.occupied())
        .intersection(takeable(position, occupancy));
    advances.union(takes)
}

/// The squares that the man on `from`, one of the side to move, may go to where its king is left aside.
pub(crate) fn targets(
    position: &Position,
    occupancy: Occupancy,
    man: Man,
    from: Square,
) -> SquareSet
    requires occupancy { IsOccupancy position.now occupancy }
    requires mine { man.side ≡ position.now.side }
    ensures goes { (t : ℕ) → Has result t ↔ Goes position.now man from t }
    ensures few { size_of result ≤ most_goals man.kind }
{
    if man.kind == Kind::P {
        pawn_targets(position, occupancy, man, from)
    } else {
        piece_targets(position, occupancy, man, from)
    }
}

/// Whether the man arrives on `to` as a pawn that takes the one that has just passed there.
fn takes_in_passing(position: &Position, man: Man, to: Square) -> bool
    ensures { result ≡ takes_in_passing position.now man to }
{
    man.kind == Kind::P && position.target() == Some(to)
}

/// The board without a pawn that the man takes in passing.
fn left(position: &Position, man: Man, to: Square) -> Board
    ensures left { result ≡ men_left position.now man to }
    ensures admissible { IsAdmissible position.now }
{
    let mut board = position.board().copied();
    let waiting = position.side().other();
    if takes_in_passing(position, man, to) {
        board.clear(to.ahead(waiting));
    }
    board
}

/// The board after the man, one of the side to move, has made the move.
pub(crate) fn moved(position: &Position, man: Man, chess_move: Move) -> Board
    requires stands { Stands position.now.men chess_move.from man }
    requires mine { man.side ≡ position.now.side }
    ensures { result ≡ men_after position.now man chess_move }
{
    let mut board = left(position, man, chess_move.to);
    board.clear(chess_move.from);
    board.put(chess_move.to, arriving(man, chess_move.promo));
    board
}

/// Where the king of the side to move stands once the man on `from`, one of its own, has gone to `to`.
fn king_after(position: &Position, man: Man, from: Square, to: Square) -> Square
    requires stands { Stands position.now.men from man }
    requires mine { man.side ≡ position.now.side }
    requires goes { Goes position.now man from to }
    ensures { IsKingOn (men_after position.now man (plain from to)) man.side result }
{
    let king = position.king(position.side());
    match man.kind {
        Kind::K => to,
        _ => king,
    }
}

/// Whether the king of the side to move is safe once the man on `from`, one of its own, has gone to `to`. What a
/// pawn becomes there does not matter.
pub(crate) fn is_safe(position: &Position, man: Man, from: Square, to: Square) -> bool
    requires stands { Stands position.now.men from man }
    requires mine { man.side ≡ position.now.side }
    requires goes { Goes position.now man from to }
    ensures { IsTrue result ↔ ¬ IsInCheck (men_after position.now man (plain from to)) position.now.side }
{
    let king = king_after(position, man, from, to);
    let there = Move {
        from,
        to,
        promo: None,
    };
    !moved(position, man, there).is_in_check(king, man.side)
}

/// The square that the man passes from `from` to `to` as a pawn that advances two squares.
pub fn passed(man: Man, from: Square, to: Square) -> Option<Square>
    ensures { result ≡ passed man from to }
{
    let ranks_up = to.rank() == from.rank() + 2;
    let ranks_down = from.rank() == to.rank() + 2;
    if man.kind == Kind::P && (ranks_up || ranks_down) {
        Some(Square::at((from.number() + to.number()) / 2))
    } else {
        None
    }
}
