//! The line of best play.
ghost use Rattle.std.specs.Prelude.{◌≡◌, ◌+◌, ◌<◌, ◌≤◌, IfOk, IfErr};
ghost use Rattle.egt_probe.specs.Prelude.{other_side, HasValue, chess, mate_by, entry_of, IsLineFault, IsLine};
ghost use Rattle.egt_probe.specs.Prelude.{IsFirstTo, IsBestPlay, IsLoaded, loaded_in};

use crate::facts::facts;
use crate::fault::LineFault;
use crate::first_move::first_with;
use crate::looking::{moves_stay_loaded, verdict};
use crate::outcome::Outcome;
use egt_board::{Position, Side};
use egt_check::Library;
use egt_moves::Move;
use std::alloc::{AllocError, Global};

/// The mate entry of a position in which that side is to move and the winner mates in so many plies.
fn decided_entry(mover: Side, winner: Side, plies: u16) -> u16
    requires { plies ≤ 32000 }
    ensures { result ≡ entry_of (mate_by mover winner plies) }
{
    if mover == winner {
        2 + 2 * plies
    } else {
        3 + 2 * plies
    }
}

/// The next move of best play where the winner mates in `plies + 1` plies, and where it leads.
pub(crate) fn next_move(
    library: &Library,
    position: &Position,
    winner: Side,
    plies: u16,
) -> (Move, Position)
    requires loaded { IsLoaded (loaded_in library.now) position.now }
    requires short { plies < 32000 }
    requires value { HasValue chess position.now (mate_by position.now.side winner (plies + 1)) }
    ensures first { IsFirstTo (mate_by (other_side position.now.side) winner plies) position.now result.0 result.1 }
    ensures loaded { IsLoaded (loaded_in library.now) result.1 }
{
    facts();
    moves_stay_loaded(library, position);
    let entry = decided_entry(position.side().other(), winner, plies);
    first_with(library, position, entry).unwrap()
}

/// The moves of best play where the winner mates in so many plies.
pub(crate) fn best_line(
    alloc: Global,
    library: &Library,
    position: &Position,
    winner: Side,
    plies: u16,
) -> Result<Vec<Move>, AllocError>
    requires loaded { IsLoaded (loaded_in library.now) position.now }
    requires short { plies ≤ 32000 }
    requires value { HasValue chess position.now (mate_by position.now.side winner plies) }
    ensures { IfOk result (λ moves. IsLine position.now (mate_by position.now.side winner plies) moves.items) }
{
    let mut moves = Vec::with_capacity(alloc, usize::from(plies))?;
    let mut here = position.copied();
    let mut left = plies;
    while left > 0 {
        left -= 1;
        let (chess_move, next) = next_move(library, &here, winner, left);
        moves.push(chess_move)?;
        here = next;
    }
    Ok(moves)
}

/// The line of best play of a position that is won or lost: as many moves as plies to mate, each the first in the order
/// of moves that keeps the distance, the last one checkmate.
///
/// # Errors
///
/// `Missing` where the library has no table of the position's class, `Drawn` where the position is a draw, and
/// `NoMemory` where there is no memory for the moves.
pub fn line(alloc: Global, library: &Library, position: &Position) -> Result<Vec<Move>, LineFault>
    ensures line { IfOk result (λ moves. IsBestPlay position.now moves.items) }
    ensures loaded { IfOk result (λ _. IsLoaded (loaded_in library.now) position.now) }
    ensures fault { IfErr result (λ fault. IsLineFault (loaded_in library.now) position.now fault) }
{
    let verdict = match verdict(library, position) {
        Ok(verdict) => verdict,
        Err(missing) => return Err(LineFault::Missing(missing.class)),
    };
    let Outcome::Decided { winner, plies, .. } = verdict.value else {
        return Err(LineFault::Drawn);
    };
    match best_line(alloc, library, position, winner, plies) {
        Ok(moves) => Ok(moves),
        Err(_) => Err(LineFault::NoMemory),
    }
}
