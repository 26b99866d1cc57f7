//! The move that holds a draw.
ghost use Rattle.std.specs.Prelude.{Some, IfOk, IfErr};
ghost use Rattle.egt_probe.specs.Prelude.{Draw, HasValue, chess, CanMove, IsHoldFault, IsHold, IsLoaded, loaded_in};

use crate::facts::facts;
use crate::fault::HoldFault;
use crate::first_move::first_with;
use crate::looking::verdict;
use crate::outcome::Outcome;
use egt_board::Position;
use egt_check::Library;
use egt_moves::Move;

/// The mate entry of a draw.
const DRAWN: u16 = 1;

/// The first move of a drawn position that leads to a drawn one.
pub(crate) fn drawing_move(library: &Library, position: &Position) -> Option<Move>
    requires loaded { IsLoaded (loaded_in library.now) position.now }
    requires drawn { HasValue chess position.now Draw }
    ensures { IsHold position.now result }
{
    facts();
    match first_with(library, position, DRAWN) {
        Some((chess_move, _)) => Some(chess_move),
        None => None,
    }
}

/// The first move of a drawn position with a legal move that leads to a drawn one.
pub(crate) fn holding_move(library: &Library, position: &Position) -> Move
    requires loaded { IsLoaded (loaded_in library.now) position.now }
    requires drawn { HasValue chess position.now Draw }
    requires moves { CanMove position.now }
    ensures { IsHold position.now (Some result) }
{
    drawing_move(library, position).unwrap()
}

/// The first move in the order of moves that holds the draw of a drawn position, dead or not; `None` where it is
/// stalemate. It takes no memory.
///
/// # Errors
///
/// `Missing` where the library has no table of the position's class, `Decisive` where a side forces checkmate.
pub fn hold(library: &Library, position: &Position) -> Result<Option<Move>, HoldFault>
    ensures hold { IfOk result (λ held. IsHold position.now held) }
    ensures loaded { IfOk result (λ _. IsLoaded (loaded_in library.now) position.now) }
    ensures fault { IfErr result (λ fault. IsHoldFault (loaded_in library.now) position.now fault) }
{
    match verdict(library, position) {
        Err(missing) => Err(HoldFault::Missing(missing.class)),
        Ok(verdict) => match verdict.value {
            Outcome::Draw | Outcome::Dead => Ok(drawing_move(library, position)),
            Outcome::Decided { .. } => Err(HoldFault::Decisive),
        },
    }
}
