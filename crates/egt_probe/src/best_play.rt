//! The move that is best play.
ghost use Rattle.std.specs.Prelude.{◌≡◌, IfOk, IfErr};
ghost use Rattle.egt_probe.specs.Prelude.{chess, IsBest, IsLoaded, IsMissing, loaded_in};

use crate::best_line::next_move;
use crate::holding::drawing_move;
use crate::looking::verdict;
use crate::outcome::{Missing, Outcome};
use egt_board::Position;
use egt_check::Library;
use egt_moves::Move;

/// The first move in the order of moves that is best play: it mates as soon as can be, is mated as late as can be, or
/// keeps the draw, dead or not. `None` at checkmate and at stalemate. It takes no memory, and where a side mates it is
/// the first move of `line`.
///
/// # Errors
///
/// `Missing` with the position's class where the library has no table of it.
pub fn best_move(library: &Library, position: &Position) -> Result<Option<Move>, Missing>
    ensures best { IfOk result (λ best. IsBest position.now best) }
    ensures loaded { IfOk result (λ _. IsLoaded (loaded_in library.now) position.now) }
    ensures missing { IfErr result (λ missing. IsMissing (loaded_in library.now) position.now missing.class) }
{
    let verdict = match verdict(library, position) {
        Ok(verdict) => verdict,
        Err(missing) => return Err(missing),
    };
    match verdict.value {
        Outcome::Draw | Outcome::Dead => Ok(drawing_move(library, position)),
        Outcome::Decided { winner, plies, .. } => {
            if plies == 0 {
                return Ok(None);
            }
            let (chess_move, _) = next_move(library, position, winner, plies - 1);
            Ok(Some(chess_move))
        }
    }
}
