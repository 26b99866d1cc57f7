//! Entries with the kings on two squares and one side to move that are all of no position: these need no moves to be
//! judged by. Where the kings stand beside one another, or their image has a lesser code, all are.
ghost use Rattle.std.specs.Prelude.{◌≡◌, ◌+◌, ◌<◌, true};
ghost use Rattle.egt_check.specs.Prelude.{AreMenOf, HasColumn, AreBlank};

use crate::own::Own;
use crate::voids::marks_of;
use egt_blocks::blocks::begin_with;
use egt_blocks::digits::{digits_of, first_square};
use egt_blocks::men::men_on;
use egt_board::{Side, Square};
use egt_index::ShelfMen;
use egt_index::laws::numbers_stand_for_codes;
use egt_table::Column;

/// Whether the entries of the shelves from this one on, which are to be those of the men by the first one's digit, have
/// no scores.
fn shelves_are_blank(
    table: &Own,
    column: Column,
    men: &ShelfMen,
    first: u32,
    side: Side,
    targeted: bool,
) -> bool
    requires there { HasColumn column table.now }
    requires men { AreMenOf table.now.class men.now }
    requires room { first + 64 < 4294967296 }
    ensures { result ≡ true → AreBlank table.now column men.now first side }
{
    numbers_stand_for_codes();
    if !begin_with(table.class(), men, targeted, first) {
        return false;
    }
    let from = first_square(men.first);
    for digit in 0..digits_of(men.first) {
        let there = men_on(men, Square::at(from + digit));
        let shelf = first + u32::from(digit);
        if marks_of(table, column, &there, shelf, side, targeted) != 0 {
            return false;
        }
    }
    true
}

/// Whether the entries of the shelves from this one on, and of those `half` further on, which have the same men and a
/// target, have no scores; `half` is 0 in a class without targets.
pub fn side_is_blank(
    table: &Own,
    column: Column,
    men: &ShelfMen,
    first: u32,
    half: u32,
    side: Side,
) -> bool
    requires there { HasColumn column table.now }
    requires men { AreMenOf table.now.class men.now }
    requires room { first + half + 64 < 4294967296 }
    ensures { result ≡ true → AreBlank table.now column men.now first side ×
        AreBlank table.now column men.now (first + half) side }
{
    if !shelves_are_blank(table, column, men, first, side, false) {
        return false;
    }
    if half == 0 {
        return true;
    }
    shelves_are_blank(table, column, men, first + half, side, true)
}
