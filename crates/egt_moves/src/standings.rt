//! Checkmate and stalemate.
ghost use Rattle.std.specs.Prelude.{MatchBool};
ghost use Rattle.egt_moves.specs.Prelude.{StandsAs, CanMove, IsStuck};

use crate::outcome::Standing;
use crate::targets::legal_targets;
use egt_board::Position;

/// Whether the side to move has a legal move.
fn can_move(position: &Position) -> bool
    ensures { MatchBool result (CanMove position.now) (IsStuck position.now) }
{
    let mut rest = position.of(position.side());
    while let Some(from) = rest.pop_first() {
        let mut targets = legal_targets(position, from);
        if let Some(_to) = targets.pop_first() {
            return true;
        }
    }
    false
}

/// Whether the side to move is checkmated, stalemated, or has a legal move.
pub fn standing(position: &Position) -> Standing
    ensures { StandsAs position.now result }
{
    if can_move(position) {
        return Standing::HasMove;
    }
    let side = position.side();
    if position.board().is_in_check(position.king(side), side) {
        Standing::Checkmate
    } else {
        Standing::Stalemate
    }
}
