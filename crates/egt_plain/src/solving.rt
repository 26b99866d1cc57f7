//! The classes one by one, each beside those before it.
use crate::code::THIRD;
use crate::mates::solve_mates;
use crate::reach::solve_reach;
use crate::tables::{PlainTable, PlainTables};
use crate::zeroing::solve_zeroing;
use std::alloc::{AllocError, Global};

impl PlainTables {
    /// Solves the first classes, so many.
    pub fn solve(alloc: Global, classes: usize) -> Result<PlainTables, AllocError> {
        let mut solved = PlainTables {
            tables: Vec::with_capacity(alloc, THIRD.len())?,
        };
        for third in THIRD.iter().take(classes) {
            let mate = solve_mates(alloc, *third, &solved)?;
            let zeroing = solve_zeroing(alloc, *third, &mate, &solved)?;
            let reach = solve_reach(alloc, *third, &mate, &solved)?;
            solved.tables.push(PlainTable {
                mate,
                zeroing,
                reach,
            })?;
        }
        Ok(solved)
    }
}
