//! The tables of the classes.
use crate::code::{PlainPosition, THIRD};
use egt_board::Kind;
use egt_table::Column;

/// The columns of a class, by code.
#[derive(Drop)]
pub(crate) struct PlainTable {
    pub(crate) mate: Vec<u16>,
    pub(crate) zeroing: Vec<u16>,
    pub(crate) reach: Vec<u16>,
}

/// The tables of the classes 0 to some number of at most 5. An entry is 0 for a code that is no position, 1 for a draw,
/// `2 + 2n` for a win in n plies and `3 + 2n` for a loss in n plies; in the column of the nearest mates 1 for a dead
/// position and `2 + n` where n plies of both sides lead to a checkmate.
#[derive(Drop)]
pub struct PlainTables {
    pub(crate) tables: Vec<PlainTable>,
}

impl PlainTables {
    /// The entries of a class, by number; none where it was not solved.
    pub fn entries(&self, class: usize, column: Column) -> &[u16] {
        match self.tables.get(class) {
            Some(table) => match column {
                Column::Mate => &table.mate,
                Column::Zeroing => &table.zeroing,
                Column::Reach => &table.reach,
            },
            None => &[],
        }
    }

    /// The entry of a position of a class that was solved; 0 where it is none.
    pub fn entry_of(&self, column: Column, position: PlainPosition) -> u16 {
        let kind = position.third.map(|(kind, _)| kind);
        for (class, third) in THIRD.iter().enumerate() {
            if *third == kind {
                return entry_at(self.entries(class, column), position.code());
            }
        }
        0
    }

    /// The entry of a position, which is of a class that was solved or of the one in work, of which this is the column;
    /// 0 where it is none.
    pub(crate) fn entry_beside(
        &self,
        column: Column,
        third: Option<Kind>,
        in_work: &[u16],
        position: PlainPosition,
    ) -> u16 {
        if position.third.map(|(kind, _)| kind) == third {
            entry_at(in_work, position.code())
        } else {
            self.entry_of(column, position)
        }
    }
}

/// The entry of a code, and 0 from the end of the column on.
pub(crate) fn entry_at(column: &[u16], code: usize) -> u16 {
    match column.get(code) {
        Some(entry) => *entry,
        None => 0,
    }
}
