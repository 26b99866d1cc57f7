//! Sweeps for the plies to checkmate. Sweep n looks at the successors of each position that is not decided: it is won
//! in n where one of them is lost in less than n, and lost in n where all are won in less, or where it is checkmate and
//! n is 0.
use crate::code::{PlainPosition, code_count};
use crate::outcome::{DRAW, is_loss_below, is_win_below, loss, win};
use crate::tables::PlainTables;
use egt_board::Kind;
use egt_table::Column;
use std::alloc::{AllocError, Global};

/// 1 for each code that is a position, and 0 for the others.
fn undecided(alloc: Global, third: Option<Kind>) -> Result<Vec<u16>, AllocError> {
    let mut column = Vec::with_capacity(alloc, code_count(third))?;
    for code in 0..code_count(third) {
        let is_position = PlainPosition::of_code(third, code).is_position();
        column.push(u16::from(is_position))?;
    }
    Ok(column)
}

/// What sweep n finds of a position: an entry where it is decided.
fn decided(
    column: &[u16],
    third: Option<Kind>,
    solved: &PlainTables,
    position: PlainPosition,
    plies: u16,
) -> Option<u16> {
    let mut has_move = false;
    let mut all_won = true;
    for successor in position.successors().as_slice() {
        let entry = solved.entry_beside(Column::Mate, third, column, successor.position);
        if entry != 0 {
            has_move = true;
            if is_loss_below(entry, plies) {
                return Some(win(plies));
            }
            all_won = all_won && is_win_below(entry, plies);
        }
    }
    if has_move {
        return if all_won { Some(loss(plies)) } else { None };
    }
    if plies == 0 && position.black_moves && position.checks_black() {
        Some(loss(0))
    } else {
        None
    }
}

/// One sweep over all codes; tells whether it decided one.
fn sweep(column: &mut [u16], third: Option<Kind>, solved: &PlainTables, plies: u16) -> bool {
    let mut decides = false;
    for code in 0..column.len() {
        if column[code] == DRAW {
            let position = PlainPosition::of_code(third, code);
            if let Some(entry) = decided(column, third, solved, position, plies) {
                column[code] = entry;
                decides = true;
            }
        }
    }
    decides
}

/// After so many plies no value of a solved class falls due any more.
fn plies_due(solved: &PlainTables) -> u16 {
    let mut greatest = 0u16;
    for table in &solved.tables {
        for entry in &table.mate {
            greatest = greatest.max(*entry);
        }
    }
    greatest / 2
}

/// The mate column of a class. Sweeps end where one decides nothing and no value of another class is still to fall due.
pub(crate) fn solve_mates(
    alloc: Global,
    third: Option<Kind>,
    solved: &PlainTables,
) -> Result<Vec<u16>, AllocError> {
    let mut column = undecided(alloc, third)?;
    let due = plies_due(solved);
    for plies in 0..u16::MAX {
        let decides = sweep(&mut column, third, solved, plies);
        if !decides && plies >= due {
            break;
        }
    }
    Ok(column)
}
