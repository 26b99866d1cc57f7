//! One man back on the square that it may have come from.
ghost use Rattle.std.specs.Prelude.{◌≡◌, ◌↔◌, IsTrue};
ghost use Rattle.egt_unmoves.specs.Prelude.{Man, other_side, MayStand, Advances, IsFree, SettlesTo, IsKingOn, P, plain};
ghost use Rattle.egt_unmoves.specs.Prelude.{ComesBy, MayComeFrom, MayHaveLeft, Went, led_to, men_before, setup_before};

use egt_board::{Board, Kind, Man, Position, Side, Square};
use egt_moves::going::passed;

/// Whether the man is a pawn.
pub(crate) fn is_pawn(man: Man) -> bool
    ensures { IsTrue result ↔ (man.kind ≡ P) }
{
    man.kind == Kind::P
}

/// Whether a pawn may stand on the square: on none of the first rank or the last.
fn may_have_pawn(square: Square) -> bool
    ensures { (man : Man) → man.kind ≡ P → IsTrue result ↔ MayStand man square }
{
    let rank = square.rank();
    0 < rank && rank < 7
}

/// The target that is left, once settled, by a pawn of the side that waits that has gone from `from` to `to`.
fn target_left(position: &Position, man: Man, from: Square, to: Square) -> Option<Square>
    requires pawn { man.kind ≡ P }
    requires theirs { man.side ≡ other_side position.now.side }
    requires advances { Advances (λ _. Unit {0}) man.side from to }
    ensures { SettlesTo (led_to position.now man to from)
        (record { men = position.now.men; side = position.now.side; target = result }) }
{
    let target = passed(man, from, to)?;
    if position.board().has_pawn_beside(position.side(), to) {
        Some(target)
    } else {
        None
    }
}

/// Whether both are the same target, or none.
fn is_same(target: Option<Square>, other: Option<Square>) -> bool
    ensures { IsTrue result ↔ (target ≡ other) }
{
    target == other
}

/// Whether a pawn of the side that waits advanced from `from` to `to`, and left the target that the position has. On
/// the board it is back on `from`.
fn advanced(position: &Position, board: &Board, man: Man, from: Square, to: Square) -> bool
    requires pawn { man.kind ≡ P }
    requires theirs { man.side ≡ other_side position.now.side }
    ensures { IsTrue result ↔ (MayStand man from × Advances (IsFree board.now) man.side from to ×
        SettlesTo (led_to position.now man to from) position.now) }
{
    if !may_have_pawn(from) {
        return false;
    }
    if !board.advances(man.side, from).contains(to) {
        return false;
    }
    is_same(target_left(position, man, from, to), position.target())
}

/// Whether the man went from `from`, which it may have left, to `to`. On the board it is back on `from`.
pub(crate) fn went(position: &Position, board: &Board, man: Man, from: Square, to: Square) -> bool
    requires may { MayComeFrom position.now man to from }
    requires left { MayHaveLeft position.now man to from }
    requires board { board.now ≡ men_before position.now.men man to from }
    ensures { IsTrue result ↔ Went position.now man to from }
{
    if is_pawn(man) {
        advanced(position, board, man, from, to)
    } else {
        position.target().is_none()
    }
}

/// The square of that side's king once the man on `to` is back on `from`.
fn king_before(position: &Position, from: Square, to: Square, side: Side) -> Square
    ensures { (man : Man) → MayComeFrom position.now man to from →
        IsKingOn (men_before position.now.men man to from) side result }
{
    let king = position.king(side);
    if king == to { from } else { king }
}

/// The position with this target from which the man's move from the one square to the other led to this. On the board
/// it is back on `from`.
pub(crate) fn before(
    position: &Position,
    board: &Board,
    man: Man,
    from: Square,
    to: Square,
    target: Option<Square>,
) -> Position
    requires may { MayComeFrom position.now man to from }
    requires board { board.now ≡ men_before position.now.men man to from }
    requires comes { ComesBy (setup_before position.now man to from target) (plain from to) position.now }
    ensures { result ≡ setup_before position.now man to from target }
{
    let white_king = king_before(position, from, to, Side::White);
    let black_king = king_before(position, from, to, Side::Black);
    Position::with_kings(board.copied(), man.side, target, white_king, black_king)
}
