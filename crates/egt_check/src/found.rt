//! The entries of a class with two men beside the kings while they are found: their scores are kept as rows of bytes.
ghost use Rattle.std.specs.Prelude.{◌≡◌, ◌<◌, ℕ, false, None, Some, IsSome, map, slice_index};
ghost use Rattle.egt_check.specs.Prelude.{code_of, places, HasTwoBeside, IsShelf, IsShelfOf, IsWithin, number_in};
ghost use Rattle.egt_check.specs.Prelude.{stand_with, TellsMen, IsRaised, HasColumn, IsTable, entries_of, Column};
ghost use Rattle.egt_check.specs.Prelude.{column_score, IsToldEntry, IsToldFrom, TellColumn, table_told, told, IsPut};
ghost use Rattle.egt_check.specs.Prelude.{has_target, material_of, IsMaskOf};
ghost use Rattle.egt_table.specs.declared.column.Column.TheVariants as columns;

use crate::fitting::are_told;
use crate::part::Part;
use crate::row_judging::first_of;
use crate::rows::row_of;
use crate::score_rows::ScoreRows;
use crate::shelf::Shelf;
use crate::told_rows::told_row;
use egt_blocks::digits::{digits_of, first_square};
use egt_board::{Side, SquareSet};
use egt_class::Class;
use egt_index::laws::{codes_tell_turned_men, numbers_stand_for_codes};
use egt_index::{ShelfMen, code_of, has_target, last_digits, shelf_men, size};
use egt_lanes::Row;
use egt_lanes::load::woven;
use egt_table::{Column, Table};
use std::marker::Model;
use std::simd::prelude::*;

/// A table of a class with two men beside the kings, the entries of one part of which are being found.
#[derive(Drop)]
pub struct Found {
    /// Its class and other columns.
    table: Table,
    /// The scores in the mate column or, without clocks, in the column of the nearest mates.
    scores: ScoreRows,
    /// The scores in the zeroing column, which is found with the mate column.
    clocks: Option<ScoreRows>,
}

impl Model for Found {
    ghost use Rattle.egt_table.specs.Table.{TableValue};
    ghost use Rattle.egt_check.specs.Found.{AreFound, table_told};

    ghost Value = { TableValue };

    ghost view = { λ f. table_told f.table f.scores f.clocks };

    ghost invariant = { λ f. AreFound f.table f.scores f.clocks };
}

/// Gives the shelf's codes with that side to move the entries that their scores tell.
fn tell_side(
    table: &mut Table,
    column: Column,
    scores: &ScoreRows,
    men: &ShelfMen,
    shelf: u32,
    side: Side,
)
    requires there { HasColumn column table.old }
    requires class { scores.now.class ≡ table.old.class }
    requires shelf { IsShelf table.old.class shelf men.now }
    requires within { IsWithin table.old.class shelf }
    ensures kept { IsToldFrom column scores.now.scores table.old table.new }
    ensures told { (k : ℕ) → k < places table.old.class →
        IsToldEntry column scores.now.scores table.new
        (code_of table.old.class (number_in table.old.class shelf side k)) }
{
    numbers_stand_for_codes();
    let class = table.class();
    let _size = size(class);
    let row = scores.row(men, shelf, side);
    let entries = told_row(column, row);
    let from = usize::from(first_square(men.last));
    let first = first_of(class, shelf, side);
    for digit in 0..u32::from(digits_of(men.last)) {
        let entry = entries[from + digit as usize];
        table.put(column, code_of(class, first + 2 * digit), &[entry]);
    }
}

/// Gives the shelf's codes, which are its numbers in a class without targets, the entries that their scores tell.
fn tell_plain(table: &mut Table, column: Column, scores: &ScoreRows, men: &ShelfMen, shelf: u32)
    requires there { HasColumn column table.old }
    requires class { scores.now.class ≡ table.old.class }
    requires shelf { IsShelf table.old.class shelf men.now }
    requires within { IsWithin table.old.class shelf }
    requires targets { has_target (material_of table.old.class) ≡ false }
    ensures kept { IsToldFrom column scores.now.scores table.old table.new }
    ensures told { (side : Side) (k : ℕ) → k < places table.old.class →
        IsToldEntry column scores.now.scores table.new
        (code_of table.old.class (number_in table.old.class shelf side k)) }
{
    let white = told_row(column, scores.row(men, shelf, Side::White));
    let black = told_row(column, scores.row(men, shelf, Side::Black));
    let entries = woven(white, black);
    let from = 2 * usize::from(first_square(men.last));
    let len = 2 * usize::from(digits_of(men.last));
    let first = first_of(table.class(), shelf, Side::White);
    table.put(column, first, &entries[from..from + len]);
}

/// Gives the codes of the shelf the entries that their scores tell.
fn tell_shelf(table: &mut Table, column: Column, scores: &ScoreRows, shelf: u32)
    requires there { HasColumn column table.old }
    requires class { scores.now.class ≡ table.old.class }
    requires two { HasTwoBeside table.old.class }
    requires within { IsWithin table.old.class shelf }
    ensures kept { IsToldFrom column scores.now.scores table.old table.new }
    ensures told { (side : Side) (k : ℕ) → k < places table.old.class →
        IsToldEntry column scores.now.scores table.new
        (code_of table.old.class (number_in table.old.class shelf side k)) }
{
    let class = table.class();
    let Some(men) = shelf_men(class, shelf) else {
        unreachable!()
    };
    if !has_target(class) {
        tell_plain(table, column, scores, &men, shelf);
        return;
    }
    tell_side(table, column, scores, &men, shelf, Side::White);
    tell_side(table, column, scores, &men, shelf, Side::Black);
}

/// Gives all codes the entries in the column that their scores tell.
fn tell_column(table: &mut Table, column: Column, scores: &ScoreRows)
    requires there { HasColumn column table.old }
    requires class { scores.now.class ≡ table.old.class }
    requires two { HasTwoBeside table.old.class }
    ensures kept { IsToldFrom column scores.now.scores table.old table.new }
    ensures told { entries_of column table.new ≡ map (told column) scores.now.scores }
{
    numbers_stand_for_codes();
    let class = table.class();
    let _scores = scores.class();
    for shelf in 0..size(class) / (2 * last_digits(class)) {
        tell_shelf(table, column, scores, shelf);
    }
    let _whole = table.class();
}

impl Found {
    /// The table with the entries that these scores tell in its columns of values.
    pub fn values(table: Table, scores: ScoreRows, clocks: ScoreRows) -> Found
        requires scores { TellColumn columns.Mate table.class scores }
        requires clocks { TellColumn columns.Zeroing table.class clocks }
        ensures { result ≡ table_told table scores (Some clocks) }
    {
        let _class = table.class();
        Found {
            table,
            scores,
            clocks: Some(clocks),
        }
    }

    /// The table with the entries that these scores tell in its column of the nearest mates.
    pub fn reach(table: Table, scores: ScoreRows) -> Found
        requires there { IsSome table.reach }
        requires scores { TellColumn columns.Reach table.class scores }
        ensures { result ≡ table_told table scores None }
    {
        let _class = table.class();
        Found {
            table,
            scores,
            clocks: None,
        }
    }

    /// The class.
    pub fn class(&self) -> Class
        ensures class { result ≡ self.now.class }
        ensures table { IsTable self.now }
    {
        self.table.class()
    }

    /// The scores of the shelf's codes with that side to move, by the last man's square, and with a target where one
    /// was passed.
    #[inline(always)]
    pub fn row(&self, column: Column, men: &ShelfMen, shelf: u32, side: Side, targeted: bool) -> Row
        requires there { HasColumn column self.now }
        requires shelf { IsShelfOf targeted self.now.class shelf men.now }
        requires within { IsWithin self.now.class shelf }
        ensures { (s : ℕ) → s < 64 → IsRaised 0
            (λ code. TellsMen targeted self.now.class code (stand_with men.now s) side) (column_score self.now column)
            (slice_index result s) }
    {
        codes_tell_turned_men();
        let _class = self.table.class();
        match &self.clocks {
            Some(clocks) => match column {
                Column::Mate => self.scores.row(men, shelf, side),
                Column::Zeroing => clocks.row(men, shelf, side),
                Column::Reach => row_of(&self.table, column, men, shelf, side, targeted),
            },
            None => match column {
                Column::Mate => row_of(&self.table, column, men, shelf, side, targeted),
                Column::Zeroing => row_of(&self.table, column, men, shelf, side, targeted),
                Column::Reach => self.scores.row(men, shelf, side),
            },
        }
    }

    /// Puts the entries with these scores at the shelf's codes with that side to move and the last man on one of these
    /// squares, where the mask is not 0; the second are of the zeroing column alone. False where no entries have them
    /// that tell one result, where a code of these is no index, and where it is not this part whose entries are being
    /// found: then all stays as it is.
    #[inline(always)]
    pub fn put(
        &mut self,
        part: Part,
        shelf: &Shelf,
        lanes: SquareSet,
        mask: Row,
        scores: Row,
        clocks: Row,
    ) -> bool
        requires shelf { IsShelf self.old.class shelf.now.number shelf.now.men }
        requires within { IsWithin self.old.class shelf.now.number }
        requires mask { IsMaskOf lanes mask }
        ensures { IsPut part shelf.now.men shelf.now.number shelf.now.side lanes scores clocks self.old self.new
            result }
    {
        let _class = self.table.class();
        let (men, number, side) = (&shelf.men, shelf.number, shelf.side);
        let own = self.scores.row(men, number, side);
        if !are_told(part, own, lanes, mask, scores, clocks) {
            return false;
        }
        match (part, &mut self.clocks) {
            (Part::Values, Some(rows)) => rows.put(men, number, side, lanes, mask, clocks),
            (Part::Reach, None) => {}
            _ => return false,
        }
        self.scores.put(men, number, side, lanes, mask, scores);
        true
    }

    /// The table with the entries that are found.
    pub fn into_table(self) -> Table
        ensures { result ≡ self }
    {
        let mut table = self.table;
        let _class = table.class();
        match &self.clocks {
            Some(clocks) => {
                tell_column(&mut table, Column::Mate, &self.scores);
                tell_column(&mut table, Column::Zeroing, clocks);
            }
            None => tell_column(&mut table, Column::Reach, &self.scores),
        }
        table
    }
}
