//! Whether checkmate is forced within some number of plies, by plain play.
ghost use Rattle.std.specs.Prelude.{◌≤◌, MatchBool};
ghost use Rattle.egt_moves.specs.Prelude.{IsMatedWithin, MatesWithin, AvoidsMateFor, CannotMateWithin, chess, IsLegal};
ghost use Rattle.egt_moves.specs.Prelude.{Leads};

use crate::listing::legal_moves;
use crate::outcome::Standing;
use crate::playing::play_legal;
use crate::standings::standing;
use egt_board::Position;

/// Whether the side to move forces checkmate within so many plies: one move that does is enough.
#[cycle(forcing)]
pub(crate) fn mates_within(position: &Position, plies: u8) -> bool
    requires { plies ≤ 6 }
    ensures { MatchBool result (MatesWithin chess plies position.now) (CannotMateWithin chess plies position.now) }
{
    if plies == 0 {
        return false;
    }
    let moves = legal_moves(position);
    for chess_move in moves.as_slice() {
        if is_mated_within(&play_legal(position, *chess_move), plies - 1) {
            return true;
        }
    }
    false
}

/// Whether the side to move is checkmated within so many plies whatever it plays: one defence is enough to
/// tell that it is not.
#[cycle(forcing)]
pub(crate) fn is_mated_within(position: &Position, plies: u8) -> bool
    requires { plies ≤ 6 }
    ensures { MatchBool result (IsMatedWithin chess plies position.now) (AvoidsMateFor chess plies position.now) }
{
    match standing(position) {
        Standing::Checkmate => return true,
        Standing::Stalemate => return false,
        Standing::HasMove => {}
    }
    if plies == 0 {
        return false;
    }
    let moves = legal_moves(position);
    for chess_move in moves.as_slice() {
        if !mates_within(&play_legal(position, *chess_move), plies - 1) {
            return false;
        }
    }
    true
}
