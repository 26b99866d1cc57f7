//! Counts over all entries of a table.
use crate::tally::{Shown, count, dead, longest};
use egt_index::size;
use egt_table::{Column, Table};

/// How many mate entries show what, the most plies of a win and of a loss, and how many positions are dead.
#[derive(Clone, Copy, Debug, PartialEq, Eq)]
pub struct Statistics {
    /// How many entries there are.
    pub entries: u32,
    /// How many are 0, where there is no position.
    pub void: u32,
    /// How many show a draw.
    pub draws: u32,
    /// How many show a win of the side to move.
    pub wins: u32,
    /// How many show a loss of the side to move.
    pub losses: u32,
    /// The most plies of a win, if there is one.
    pub longest_win: Option<u16>,
    /// The most plies of a loss, if there is one.
    pub longest_loss: Option<u16>,
    /// How many positions are dead (FIDE Laws of Chess 2023, article 5.2.2), stalemates counted, where the table has
    /// the column of the nearest mates.
    pub dead: Option<u32>,
}

impl Statistics {
    ghost use Rattle.egt_commands.specs.Statistics.{AreStatistics};

    /// The statistics of a table. They take no memory.
    pub fn of(table: &Table) -> Statistics
        ensures { AreStatistics table.now result }
    {
        Statistics {
            entries: size(table.class()),
            void: count(table, Column::Mate, Shown::Void),
            draws: count(table, Column::Mate, Shown::Draw),
            wins: count(table, Column::Mate, Shown::Win),
            losses: count(table, Column::Mate, Shown::Loss),
            longest_win: longest(table, Shown::Win),
            longest_loss: longest(table, Shown::Loss),
            dead: dead(table),
        }
    }
}
