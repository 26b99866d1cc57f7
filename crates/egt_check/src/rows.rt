//! The scores that a table gives the codes which differ by the last man's square alone.
ghost use Rattle.std.specs.Prelude.{◌≡◌, ◌↔◌, ℕ, ◌+◌, ◌*◌, ◌/◌, ◌%◌, ◌<◌, ◌≤◌, false, true, slice_index, IsTrue};
ghost use Rattle.egt_check.specs.Prelude.{MayStand, material_of, code_of, places, IsShelf, IsShelfOf, IsWithin};
ghost use Rattle.egt_check.specs.Prelude.{stand_with, has_target, size_of, TellsMen, IsRaised, HasColumn, IsShelfRow};
ghost use Rattle.egt_check.specs.Prelude.{column_score, entry_score};

use egt_blocks::own_men::is_pawn;
use egt_board::{Kind, Man, Side, Square};
use egt_class::Class;
use egt_index::laws::codes_tell_turned_men;
use egt_index::{ShelfMen, code_of, has_target, last_digits, size};
use egt_lanes::Row;
use egt_lanes::load::{load, load_pawn, load_target};
use egt_lanes::score::{Entries, reach_scores, scores};
use egt_table::{Column, Table};

/// The scores of entries of the column, of which the low byte counts.
#[inline(always)]
pub(crate) fn column_scores(column: Column, entries: Entries) -> Row
    ensures { (s : ℕ) → s < 64 → slice_index result s ≡ entry_score column (slice_index entries s % 256) }
{
    match column {
        Column::Mate | Column::Zeroing => scores(entries),
        Column::Reach => reach_scores(entries),
    }
}

/// The scores of a shelf's codes in a class without targets, where the numbers are the codes.
#[inline(always)]
fn plain_row(table: &Table, column: Column, men: &ShelfMen, shelf: u32, side: Side) -> Row
    requires there { HasColumn column table.now }
    requires shelf { IsShelf table.now.class shelf men.now }
    requires within { IsWithin table.now.class shelf }
    requires targets { has_target (material_of table.now.class) ≡ false }
    ensures { IsShelfRow table.now.class (column_score table.now column) men.now shelf side result }
{
    let len = 2 * last_digits(table.class()) as usize;
    let first = shelf as usize * len;
    let entries = &table.entries(column)[first..first + len];
    let loaded = if is_pawn(men.last) {
        load_pawn(entries, side)
    } else {
        load(entries, side)
    };
    column_scores(column, loaded)
}

/// The first of the shelf's codes, without a target's digit. There are four codes for each square of the last man.
fn first_of_targets(class: Class, shelf: u32) -> u32
    requires within { IsWithin class shelf }
    requires targets { has_target (material_of class) ≡ true }
    ensures first { result ≡ code_of class (shelf * (2 * places class)) / 2 * 2 }
    ensures within { result + 192 ≤ size_of class }
{
    let _size = size(class);
    code_of(class, shelf * (2 * last_digits(class))) / 2 * 2
}

/// The scores of a shelf's codes in a class with targets, where beside each lies the code with the other digit of a
/// target. The contract alone reads the men.
#[inline(always)]
fn target_row(
    table: &Table,
    column: Column,
    men: &ShelfMen,
    shelf: u32,
    side: Side,
    targeted: bool,
) -> Row
    requires there { HasColumn column table.now }
    requires shelf { IsShelfOf targeted table.now.class shelf men.now }
    requires within { IsWithin table.now.class shelf }
    requires targets { has_target (material_of table.now.class) ≡ true }
    ensures { IsShelfRow table.now.class (column_score table.now column) men.now shelf side result }
{
    let first = first_of_targets(table.class(), shelf) as usize;
    let entries = &table.entries(column)[first..first + 192];
    column_scores(column, load_target(entries, side, targeted))
}

/// The scores of the codes that tell these men, who are those of the shelf, by the last man's square, and a target
/// where one was passed.
#[inline(always)]
pub fn row_of(
    table: &Table,
    column: Column,
    men: &ShelfMen,
    shelf: u32,
    side: Side,
    targeted: bool,
) -> Row
    requires there { HasColumn column table.now }
    requires shelf { IsShelfOf targeted table.now.class shelf men.now }
    requires within { IsWithin table.now.class shelf }
    ensures { (s : ℕ) → s < 64 → IsRaised 0 (λ code. TellsMen targeted table.now.class code (stand_with men.now s) side)
        (column_score table.now column) (slice_index result s) }
{
    codes_tell_turned_men();
    if has_target(table.class()) {
        target_row(table, column, men, shelf, side, targeted)
    } else {
        plain_row(table, column, men, shelf, side)
    }
}
