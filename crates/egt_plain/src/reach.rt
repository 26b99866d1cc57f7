//! Sweeps for the plies to the nearest checkmate, whichever side is mated, by moves of both sides. Sweep n looks at the
//! successors of each position of which no number is known: it is n where the number of one of them is less.
use crate::code::PlainPosition;
use crate::outcome::loss;
use crate::tables::PlainTables;
use egt_board::Kind;
use egt_table::Column;
use std::alloc::{AllocError, Global};

/// The entry of a position of which no number is known: in the end no checkmate is reached from it.
const DEAD: u16 = 1;

/// The entry of a checkmate.
const MATE: u16 = 2;

/// The entries known from the mate column alone: void codes and checkmates.
fn begun(alloc: Global, mate: &[u16]) -> Result<Vec<u16>, AllocError> {
    let mut column = Vec::with_capacity(alloc, mate.len())?;
    for entry in mate {
        column.push(if *entry == loss(0) {
            MATE
        } else {
            DEAD.min(*entry)
        })?;
    }
    Ok(column)
}

/// Whether a successor has an entry from that of checkmate on and below this one.
fn leads_below(
    column: &[u16],
    third: Option<Kind>,
    solved: &PlainTables,
    position: PlainPosition,
    entry: u16,
) -> bool {
    for successor in position.successors().as_slice() {
        let reached = solved.entry_beside(Column::Reach, third, column, successor.position);
        if MATE <= reached && reached < entry {
            return true;
        }
    }
    false
}

/// One sweep over all codes; tells whether it found a number.
fn sweep(column: &mut [u16], third: Option<Kind>, solved: &PlainTables, entry: u16) -> bool {
    let mut finds = false;
    for code in 0..column.len() {
        if column[code] == DEAD {
            let position = PlainPosition::of_code(third, code);
            if leads_below(column, third, solved, position, entry) {
                column[code] = entry;
                finds = true;
            }
        }
    }
    finds
}

/// The greatest entry of the solved classes: after it none falls due.
fn last_due(solved: &PlainTables) -> u16 {
    let mut greatest = MATE;
    for table in &solved.tables {
        for entry in &table.reach {
            greatest = greatest.max(*entry);
        }
    }
    greatest
}

/// The column of the nearest mates of a class. Sweeps end where one finds nothing and no number of another class is
/// still to fall due.
pub(crate) fn solve_reach(
    alloc: Global,
    third: Option<Kind>,
    mate: &[u16],
    solved: &PlainTables,
) -> Result<Vec<u16>, AllocError> {
    let mut column = begun(alloc, mate)?;
    let due = last_due(solved);
    for entry in 3..u16::MAX {
        let finds = sweep(&mut column, third, solved, entry);
        if !finds && entry > due {
            break;
        }
    }
    Ok(column)
}
