//! The entries of the class itself, beside those of its children: a table's, or those that are being found.
ghost use Rattle.std.specs.Prelude.{◌≡◌, ◌<◌, ℕ, IfSome, slice_index};
ghost use Rattle.egt_check.specs.Prelude.{IsShelfOf, IsWithin, stand_with, TellsMen, IsRaised, HasColumn, IsTable};
ghost use Rattle.egt_check.specs.Prelude.{column_score};

use crate::found::Found;
use crate::rows::row_of;
use egt_blocks::scored::ShelfScores;
use egt_board::Side;
use egt_class::Class;
use egt_index::ShelfMen;
use egt_lanes::Row;
use egt_table::{Column, Table};
use std::marker::Model;

/// Whose they are.
#[derive(Drop)]
enum Entries<'o> {
    OfTable(&'o Table),
    OfFound(&'o Found),
}

/// The entries of a class with two men beside the kings.
#[derive(Drop)]
pub struct Own<'o> {
    entries: Entries<'o>,
}

impl<'o> Model for Own<'o> {
    ghost use Rattle.egt_table.specs.Table.{TableValue};
    ghost use Rattle.egt_check.specs.Own.{entries_seen};

    ghost Value = { TableValue };

    ghost view = { λ o. entries_seen o.entries };
}

impl<'o> Own<'o> {
    /// The entries of a table.
    pub fn of_table(table: &'o Table) -> Own<'o>
        ensures { result ≡ table.now }
    {
        Own {
            entries: Entries::OfTable(table),
        }
    }

    /// The entries that are being found.
    pub fn of_found(found: &'o Found) -> Own<'o>
        ensures { result ≡ found.now }
    {
        Own {
            entries: Entries::OfFound(found),
        }
    }

    /// The table whose they are, if they are a table's.
    pub fn table(&self) -> Option<&'o Table>
        ensures { IfSome result (λ table. table.now ≡ self.now) }
    {
        match self.entries {
            Entries::OfTable(table) => Some(table),
            Entries::OfFound(_) => None,
        }
    }

    /// The class.
    pub fn class(&self) -> Class
        ensures class { result ≡ self.now.class }
        ensures table { IsTable self.now }
    {
        match self.entries {
            Entries::OfTable(table) => table.class(),
            Entries::OfFound(found) => found.class(),
        }
    }

    /// The scores of the codes that tell these men, who are those of the shelf, by the last man's square, and a target
    /// where one was passed.
    #[inline(always)]
    pub fn row(&self, column: Column, men: &ShelfMen, shelf: u32, side: Side, targeted: bool) -> Row
        requires there { HasColumn column self.now }
        requires shelf { IsShelfOf targeted self.now.class shelf men.now }
        requires within { IsWithin self.now.class shelf }
        ensures { (s : ℕ) → s < 64 → IsRaised 0
            (λ code. TellsMen targeted self.now.class code (stand_with men.now s) side) (column_score self.now column)
            (slice_index result s) }
    {
        match self.entries {
            Entries::OfTable(table) => row_of(table, column, men, shelf, side, targeted),
            Entries::OfFound(found) => found.row(column, men, shelf, side, targeted),
        }
    }
}

impl ShelfScores for Own<'_> {
    ghost number = { λ s. s.class };

    ghost worth = { λ s column. column_score s column };

    ghost has = { λ s column. HasColumn column s };

    fn class(&self) -> Class {
        self.class()
    }

    #[inline(always)]
    fn shelf_row(
        &self,
        column: Column,
        men: &ShelfMen,
        shelf: u32,
        side: Side,
        targeted: bool,
    ) -> Row {
        self.row(column, men, shelf, side, targeted)
    }
}
