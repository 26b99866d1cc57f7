//! Sweeps for the plies to a winning capture, move of a pawn or checkmate, over positions whose mate entries are known.
//! Sweep n decides a win where a move to a lost position zeroes or leads to a zeroing loss in less than n, and a loss
//! where each move zeroes or leads to a zeroing win in less than n.
use crate::code::PlainPosition;
use crate::moves::Successor;
use crate::outcome::{DRAW, is_loss, is_loss_below, is_win, is_win_below, loss, win};
use crate::tables::{PlainTables, entry_at};
use egt_board::Kind;
use egt_table::Column;
use std::alloc::{AllocError, Global};

/// The entry of a position that is won or lost and not decided yet: later than any.
const UNDECIDED: u16 = u16::MAX;

/// The mate columns.
#[derive(Clone, Copy)]
struct Known<'k> {
    /// The class in work.
    third: Option<Kind>,
    mate: &'k [u16],
    solved: &'k PlainTables,
}

impl Known<'_> {
    /// The mate entry of a position; 0 where it is none.
    fn mate_of(self, position: PlainPosition) -> u16 {
        self.solved
            .entry_beside(Column::Mate, self.third, self.mate, position)
    }

    /// Whether the move is one to a lost position that zeroes or leads to a loss in less than so many plies.
    fn wins_below(self, column: &[u16], successor: &Successor, plies: u16) -> bool {
        is_loss(self.mate_of(successor.position))
            && (successor.zeroes
                || is_loss_below(entry_at(column, successor.position.code()), plies))
    }

    /// Whether the move is none, or one to a won position that zeroes or leads to a win in less than so many plies.
    fn loses_below(self, column: &[u16], successor: &Successor, plies: u16) -> bool {
        let mate = self.mate_of(successor.position);
        if mate == 0 {
            return true;
        }
        is_win(mate)
            && (successor.zeroes
                || is_win_below(entry_at(column, successor.position.code()), plies))
    }

    /// What a sweep finds of a position with this mate entry: an entry where it is decided.
    fn decided(
        self,
        column: &[u16],
        position: PlainPosition,
        mate: u16,
        plies: u16,
    ) -> Option<u16> {
        let successors = position.successors();
        let wanted = is_win(mate);
        for successor in successors.as_slice() {
            if wanted && self.wins_below(column, successor, plies) {
                return Some(win(plies));
            }
            if !wanted && !self.loses_below(column, successor, plies) {
                return None;
            }
        }
        if wanted { None } else { Some(loss(plies)) }
    }

    /// One sweep over all codes; tells whether it decided one.
    fn sweep(self, column: &mut [u16], plies: u16) -> bool {
        let mut decides = false;
        for code in 0..column.len() {
            if column[code] == UNDECIDED {
                let position = PlainPosition::of_code(self.third, code);
                let mate = entry_at(self.mate, code);
                if let Some(entry) = self.decided(column, position, mate, plies) {
                    column[code] = entry;
                    decides = true;
                }
            }
        }
        decides
    }
}

/// The entries known from the mate column alone: void codes, draws and checkmates.
fn begun(alloc: Global, mate: &[u16]) -> Result<Vec<u16>, AllocError> {
    let mut column = Vec::with_capacity(alloc, mate.len())?;
    for entry in mate {
        let is_known = *entry <= DRAW || *entry == loss(0);
        column.push(if is_known { *entry } else { UNDECIDED })?;
    }
    Ok(column)
}

/// The zeroing column of a class. Sweeps end where one decides nothing: moves that zero count from the first on.
pub(crate) fn solve_zeroing(
    alloc: Global,
    third: Option<Kind>,
    mate: &[u16],
    solved: &PlainTables,
) -> Result<Vec<u16>, AllocError> {
    let mut column = begun(alloc, mate)?;
    let known = Known {
        third,
        mate,
        solved,
    };
    for plies in 1..u16::MAX {
        if !known.sweep(&mut column, plies) {
            break;
        }
    }
    Ok(column)
}
