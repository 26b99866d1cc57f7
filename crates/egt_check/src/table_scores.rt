//! Scores of the codes of a table's class by its entries.
ghost use Rattle.std.specs.Prelude.{◌≡◌, ◌<◌, ℕ, false, slice_index};
ghost use Rattle.egt_check.specs.Prelude.{IsLoneRow, lone_stand, TellsMen, IsRaised, HasColumn, column_score};

use crate::rows::{column_scores, row_of};
use egt_blocks::own_men::is_pawn;
use egt_blocks::scored::{LoneScores, ShelfScores};
use egt_board::{Man, Side, Square};
use egt_class::Class;
use egt_index::ShelfMen;
use egt_index::laws::codes_tell_turned_men;
use egt_lanes::Row;
use egt_lanes::load::{load, load_pawn};
use egt_table::{Column, Table};

/// A table, seen as the scores of its codes.
#[derive(Clone, Copy)]
pub(crate) struct TableScores<'t> {
    pub(crate) table: &'t Table,
}

/// The scores of the codes that tell these men, by the square of the one beside the kings. The contract alone reads who
/// they are.
#[inline(always)]
fn lone_row_of(
    table: &Table,
    column: Column,
    man: Man,
    white: Square,
    black: Square,
    first: u32,
    side: Side,
) -> Row
    requires there { HasColumn column table.now }
    requires lone { IsLoneRow table.now.class first white black man }
    ensures { (s : ℕ) → s < 64 → IsRaised 0
        (λ code. TellsMen false table.now.class code (lone_stand white black man s) side)
        (column_score table.now column) (slice_index result s) }
{
    codes_tell_turned_men();
    let first = first as usize;
    let entries = table.entries(column);
    let loaded = if is_pawn(man) {
        load_pawn(&entries[first..first + 96], side)
    } else {
        load(&entries[first..first + 128], side)
    };
    column_scores(column, loaded)
}

impl ShelfScores for TableScores<'_> {
    ghost number = { λ s. s.table.now.class };

    ghost worth = { λ s column. column_score s.table.now column };

    ghost has = { λ s column. HasColumn column s.table.now };

    fn class(&self) -> Class {
        self.table.class()
    }

    #[inline(always)]
    fn shelf_row(
        &self,
        column: Column,
        men: &ShelfMen,
        shelf: u32,
        side: Side,
        targeted: bool,
    ) -> Row {
        row_of(self.table, column, men, shelf, side, targeted)
    }
}

impl LoneScores for TableScores<'_> {
    ghost number = { λ s. s.table.now.class };

    ghost worth = { λ s column. column_score s.table.now column };

    ghost has = { λ s column. HasColumn column s.table.now };

    fn class(&self) -> Class {
        self.table.class()
    }

    #[inline(always)]
    fn lone_row(
        &self,
        column: Column,
        man: Man,
        white: Square,
        black: Square,
        first: u32,
        side: Side,
    ) -> Row {
        lone_row_of(self.table, column, man, white, black, first, side)
    }
}
