//! The search for mate.
ghost use Rattle.std.specs.Prelude.{◌≤◌};
ghost use Rattle.egt_moves.specs.Prelude.{AnswersWithin, chess, found};

use crate::forcing::{is_mated_within, mates_within};
use crate::found::Search;
use egt_board::Position;

/// The value of the position by plain play, if a side forces checkmate within so many plies, from 1 to 6.
pub fn search(position: &Position, plies: u8) -> Search
    requires some { 1 ≤ plies }
    requires few { plies ≤ 6 }
    ensures { AnswersWithin chess plies position.now (found position.now.side result) }
{
    let mover = position.side();
    for within in 0..plies + 1 {
        if is_mated_within(position, within) {
            return Search::Mate {
                winner: mover.other(),
                plies: within,
            };
        }
        if mates_within(position, within) {
            return Search::Mate {
                winner: mover,
                plies: within,
            };
        }
    }
    Search::NotWithin
}
