//! Both games over a class solved by counters, against the columns of its table.
ghost use Rattle.egt_entries.specs.Tables.{table_at};
ghost use Rattle.egt_sweep.specs.MateColumn.{AreMateRanks};

use crate::agree::entries::entry_at;
use crate::agree::games::mate_ranks;
use egt_check::Library;
use egt_class::Class;
use egt_graph::{Ranks, solve};
use egt_sweep::ZeroGame;
use egt_table::Column;
use std::alloc::Global;

/// How many entries the column of the class's table has in common with the ranks; the first index at which they differ.
fn column_agrees(
    library: &Library,
    column: Column,
    class: Class,
    ranks: &Ranks,
) -> Result<u32, u32> {
    let mut index = 0u32;
    for rank in ranks.entries() {
        if entry_at(library, column, class, index) != Some(*rank) {
            return Err(index);
        }
        index = index.wrapping_add(1);
    }
    Ok(index)
}

/// The ranks of the class's game of zeroing moves; none where a child has no table, and where memory is refused.
fn zeroing_ranks<'x>(
    alloc: Global,
    class: Class,
    library: &'x Library,
    mates: &'x Ranks,
) -> Result<Ranks, u32>
    requires { AreMateRanks (table_at library.now) class mates.now }
{
    let Ok(game) = ZeroGame::new(class, library, mates) else {
        return Err(0);
    };
    match solve(alloc, &game, 32_000) {
        Ok(ranks) => Ok(ranks),
        Err(_fault) => Err(0),
    }
}

/// How many indexes both games, solved by `solve`, have the ranks at that the class's table shows; the first at which
/// one has another, and 0 where there is no game.
pub fn solved_agrees(alloc: Global, class: Class, library: &Library) -> Result<u32, u32> {
    let mates = mate_ranks(alloc, class, library)?;
    column_agrees(library, Column::Mate, class, &mates)?;
    let zeroing = zeroing_ranks(alloc, class, library, &mates)?;
    column_agrees(library, Column::Zeroing, class, &zeroing)
}
