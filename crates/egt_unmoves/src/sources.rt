//! Where a man may have come from.
ghost use Rattle.std.specs.Prelude.{◌≡◌, ℕ, ◌<◌, ◌≤◌, ◌↔◌};
ghost use Rattle.egt_unmoves.specs.Prelude.{IsInCheck, other_side, Stands, IsFree, Reaches, Advances, IsKingOn};
ghost use Rattle.egt_unmoves.specs.Prelude.{rank_of, Has, size_of, most_goals, MayHaveLeft, Went};
ghost use Rattle.std.specs.FinMap as map;

use crate::taking_back::is_pawn;
use egt_board::safety::reach_passes_over_its_end;
use egt_board::{Board, Kind, Man, Position, Square, SquareSet};

/// The squares from which the man, put there, attacks the square.
fn attackers(left: &Board, man: Man, square: Square) -> SquareSet
    ensures attackers { (s : ℕ) → s < 64 → Has result s ↔ Reaches (IsFree (map.insert left.now s man)) man s square }
    ensures few { size_of result ≤ most_goals man.kind }
{
    reach_passes_over_its_end();
    left.reach(man.facing(), square)
}

/// The squares from which a pawn may have advanced to `to`, and perhaps others.
fn pawn_sources(left: &Board, man: Man, to: Square) -> SquareSet
    requires not_first { 0 < rank_of to }
    requires not_last { rank_of to < 7 }
    ensures sources { (s : ℕ) → s < 64 → IsFree left.now s →
        Advances (IsFree (map.insert left.now s man)) man.side s to → Has result s }
    ensures few { size_of result ≤ 4 }
{
    let back = man.side.other();
    let behind = to.ahead(back);
    left.advances(back, to).union(left.advances(back, behind))
}

/// The free squares on which the man, one of the side that waits, leaves the king of the side to move unattacked, and
/// perhaps squares that are not free. The board is the position's without the man.
fn quiet(position: &Position, left: &Board, man: Man) -> SquareSet
    requires theirs { man.side ≡ other_side position.now.side }
    requires king { (k : ℕ) → IsKingOn position.now.men position.now.side k → IsKingOn left.now position.now.side k }
    ensures { (s : ℕ) → s < 64 → IsFree left.now s →
        Has result s ↔ ¬ IsInCheck (map.insert left.now s man) position.now.side }
{
    let king = position.king(position.side());
    left.shelter(king, man.side)
        .difference(attackers(left, man, king))
}

/// The squares that the man on `to`, one of the side that waits, may have left. The board is the position's without
/// the man.
pub(crate) fn sources(position: &Position, left: &Board, man: Man, to: Square) -> SquareSet
    requires stands { Stands position.now.men to man }
    requires theirs { man.side ≡ other_side position.now.side }
    requires left { left.now ≡ map.remove position.now.men to }
    ensures complete { (s : ℕ) → Went position.now man to s → Has result s }
    ensures sound { (s : ℕ) → s < 64 → Has result s → MayHaveLeft position.now man to s }
    ensures few { size_of result ≤ most_goals man.kind }
{
    let _whole = position.side();
    let reached = if is_pawn(man) {
        pawn_sources(left, man, to)
    } else {
        attackers(left, man, to)
    };
    reached
        .difference(position.board().occupied())
        .intersection(quiet(position, left, man))
}
