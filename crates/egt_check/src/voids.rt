//! Tables whose mate entries are 0 exactly at the codes that no position has.
ghost use Rattle.std.specs.Prelude.{◌≡◌, ℕ, ◌<◌, ◌==◌, if◌then◌else◌, true, IfSome};
ghost use Rattle.egt_check.specs.Prelude.{bit_at, Side, code_of, kind_digits, AreMenOf, IsShelfOf, IsWithin, number_in};
ghost use Rattle.egt_check.specs.Prelude.{HasColumn, AreAllAlike, TellsVoids, TellsVoidsIn, column_score};

use crate::own::Own;
use egt_blocks::digits::first_square;
use egt_board::Side;
use egt_class::Class;
use egt_index::laws::{codes_tell_turned_men, numbers_stand_for_codes};
use egt_index::{ShelfMen, indexes_of, last_digits, shelf_men, shelf_of, size};
use egt_lanes::sets::lanes_of;
use egt_table::{Column, Table};

/// Whether the positions of the shelf, which has these men, have a target.
pub(crate) fn is_targeted(class: Class, men: &ShelfMen, shelf: u32) -> Option<bool>
    requires { AreMenOf class men.now }
    ensures { IfSome result (λ targeted. IsShelfOf targeted class shelf men.now) }
{
    match shelf_of(class, men, false) {
        Some(number) if number == shelf => return Some(false),
        _ => {}
    }
    match shelf_of(class, men, true) {
        Some(number) if number == shelf => Some(true),
        _ => None,
    }
}

/// At which numbers of the shelf with that side to move the entry's score is not 0, by the last man's digits, as bits.
pub(crate) fn marks_of(
    table: &Own,
    column: Column,
    men: &ShelfMen,
    shelf: u32,
    side: Side,
    targeted: bool,
) -> u64
    requires there { HasColumn column table.now }
    requires shelf { IsShelfOf targeted table.now.class shelf men.now }
    requires within { IsWithin table.now.class shelf }
    ensures { (k : ℕ) → k < kind_digits men.now.last.kind →
        bit_at result k ≡ (if column_score table.now column
        (code_of table.now.class (number_in table.now.class shelf side k)) == 0 then 0 else 1) }
{
    codes_tell_turned_men();
    let row = table.row(column, men, shelf, side, targeted);
    lanes_of(row).bits >> first_square(men.last)
}

/// Whether the mate entries of the shelf are 0 exactly where its codes are void.
fn tells_shelf(table: &Table, shelf: u32) -> bool
    requires within { IsWithin table.now.class shelf }
    requires alike { AreAllAlike table.now }
    ensures { result ≡ true → TellsVoidsIn table.now shelf }
{
    numbers_stand_for_codes();
    let class = table.class();
    let Some(men) = shelf_men(class, shelf) else {
        return false;
    };
    let Some(targeted) = is_targeted(class, &men, shelf) else {
        return false;
    };
    let indexes = indexes_of(class, shelf);
    let own = Own::of_table(table);
    let white = marks_of(&own, Column::Mate, &men, shelf, Side::White, targeted);
    let black = marks_of(&own, Column::Mate, &men, shelf, Side::Black, targeted);
    white == indexes.white && black == indexes.black
}

/// Whether the mate entries are 0 at the codes of no position and at no others, in a class with two men beside the
/// kings. It is asked once of the whole table: then an entry tells whether its code is an index.
pub(crate) fn tells_voids(table: &Table) -> bool
    requires { AreAllAlike table.now }
    ensures { result ≡ true → TellsVoids table.now }
{
    numbers_stand_for_codes();
    let class = table.class();
    let _number = class.number();
    for shelf in 0..size(class) / (2 * last_digits(class)) {
        if !tells_shelf(table, shelf) {
            return false;
        }
    }
    true
}
