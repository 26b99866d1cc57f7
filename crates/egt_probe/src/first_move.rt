//! The first move to a position with an entry.
ghost use Rattle.std.specs.Prelude.{IfSome, IfNone};
ghost use Rattle.egt_probe.specs.Prelude.{Leads, IsLegal, Move, IsLoaded, Misses, IsFirstWith, loaded_in};

use crate::facts::facts;
use crate::looking::{mate_entry, moves_stay_loaded};
use egt_board::Position;
use egt_check::Library;
use egt_moves::{Move, legal_moves, play_legal};

/// The position after a legal move.
fn after(position: &Position, chess_move: &Move) -> Position
    requires { IsLegal position.now chess_move.now }
    ensures { Leads position.now chess_move.now result }
{
    play_legal(position, *chess_move)
}

/// The first legal move that leads to a position with that mate entry, and the position.
pub(crate) fn first_with(
    library: &Library,
    position: &Position,
    entry: u16,
) -> Option<(Move, Position)>
    requires { IsLoaded (loaded_in library.now) position.now }
    ensures some { IfSome result (λ found. IsFirstWith position.now entry found.0 found.1) }
    ensures none { IfNone result ((m : Move) → Misses position.now entry m) }
{
    facts();
    moves_stay_loaded(library, position);
    let moves = legal_moves(position);
    for chess_move in moves.as_slice() {
        let next = after(position, chess_move);
        if mate_entry(library, &next) == entry {
            return Some((*chess_move, next));
        }
    }
    None
}
