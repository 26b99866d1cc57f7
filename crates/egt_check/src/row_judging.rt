//! The judgement of a row of a table's entries by the greatest scores of the moves.
ghost use Rattle.std.specs.Prelude.{◌≡◌, ◌≢◌, ◌+◌, ◌*◌, ℕ, ◌<◌, slice_index, true, IfSome};
ghost use Rattle.egt_check.specs.Prelude.{Has, code_of, kind_digits, kind_less, IsShelfOf, IsWithin, number_in};
ghost use Rattle.egt_check.specs.Prelude.{size_of, due_score, HasColumn, Zeroing, column_of, IsRightAtOf, IsRightEndOf};
ghost use Rattle.egt_check.specs.Prelude.{due_in, IsAtEnd, column_score, score_at};
ghost use Rattle.egt_check.specs.declared.part.Part.TheVariants as parts;

use crate::lane_sets::unlike;
use crate::part::{Part, column_of};
use crate::rows::row_of;
use crate::shelf::Shelf;
use crate::successors::entries_at;
use egt_blocks::digits::digit_on;
use egt_board::{Man, Position, Side, SquareSet};
use egt_class::Class;
use egt_index::laws::{codes_spell_one_position, codes_tell_turned_men};
use egt_index::{code_of, last_digits, position, size};
use egt_lanes::Row;
use egt_lanes::row::differ;
use egt_lanes::score::{due, reach_due};
use egt_lanes::sets::lanes_of;
use egt_moves::{Standing, standing};
use egt_table::{Column, Table};
use std::simd::prelude::*;

/// The entry of a position without a legal move; `None` where there is one.
pub fn entry_without_move(position: &Position) -> Option<u16>
    ensures { IfSome result (IsAtEnd position.now) }
{
    match standing(position) {
        Standing::Checkmate => Some(3),
        Standing::Stalemate => Some(1),
        Standing::HasMove => None,
    }
}

/// Whether the code's position is checkmate or stalemate, and the entries of the part tell it.
pub fn end_is_right(table: &Table, part: Part, code: u32) -> bool
    requires there { HasColumn (column_of part) table.now }
    requires code { code < size_of table.now.class }
    ensures { result ≡ true → IsRightEndOf part table.now code }
{
    codes_spell_one_position();
    let Some(position) = position(table.class(), code) else {
        return false;
    };
    let Some(entry) = entry_without_move(&position) else {
        return false;
    };
    match part {
        Part::Values => {
            let entries = entries_at(table, code);
            entries.mate == entry && entries.zeroing == entry
        }
        // Checkmate is 2 there and 3 in the other columns, any other end 1 in all.
        Part::Reach => table.entry(Column::Reach, code) == entry / 2 + 1,
    }
}

/// Whether the ends are right at the codes of the numbers of these squares of the man, every other number from his
/// first digit's on.
fn ends_are_right(table: &Table, part: Part, man: Man, first: u32, ends: SquareSet) -> bool
    requires there { HasColumn (column_of part) table.now }
    requires codes { (digit : ℕ) → digit < kind_digits man.kind → first + 2 * digit < size_of table.now.class }
    ensures { result ≡ true → (digit : ℕ) → digit < kind_digits man.kind → Has ends (digit + kind_less man.kind) →
        IsRightEndOf part table.now (code_of table.now.class (first + 2 * digit)) }
{
    let class = table.class();
    let _size = size(class);
    let mut rest = ends;
    while let Some(square) = rest.pop_first() {
        let Some(digit) = digit_on(man, square) else {
            return false;
        };
        if !end_is_right(table, part, code_of(class, first + 2 * digit)) {
            return false;
        }
    }
    true
}

/// The shelf's first number with that side to move.
pub fn first_of(class: Class, shelf: u32, side: Side) -> u32
    requires within { IsWithin class shelf }
    ensures { result ≡ number_in class shelf side 0 }
{
    let _size = size(class);
    let first = shelf * (2 * last_digits(class));
    match side {
        Side::White => first,
        Side::Black => first + 1,
    }
}

/// What the scores in the part's column have to be, by the greatest of the scores after a move.
#[inline(always)]
pub fn due_in(part: Part, row: Row) -> Row
    ensures { (s : ℕ) → s < 64 → slice_index result s ≡ due_in part (slice_index row s) }
{
    match part {
        Part::Values => due(row),
        Part::Reach => reach_due(row),
    }
}

/// Whether the scores in the zeroing column, which is judged with the mate column, are due to the greatest of the moves
/// on the squares where `within` is not 0.
#[inline(always)]
fn clock_is_due(table: &Table, part: Part, shelf: &Shelf, zeroing: Row, within: Row) -> bool
    requires shelf { IsShelfOf shelf.now.targeted table.now.class shelf.now.number shelf.now.men }
    requires within { IsWithin table.now.class shelf.now.number }
    ensures { result ≡ true → part ≡ parts.Values → (digit : ℕ) → digit < kind_digits shelf.now.men.last.kind →
        slice_index within (digit + kind_less shelf.now.men.last.kind) ≢ 0 →
        score_at table.now Zeroing (code_of table.now.class
        (number_in table.now.class shelf.now.number shelf.now.side digit)) ≡ due_score
        (slice_index zeroing (digit + kind_less shelf.now.men.last.kind)) }
{
    codes_tell_turned_men();
    match part {
        Part::Values => {
            let clock = row_of(
                table,
                Column::Zeroing,
                &shelf.men,
                shelf.number,
                shelf.side,
                shelf.targeted,
            );
            !differ(clock, due(zeroing), within)
        }
        Part::Reach => true,
    }
}

/// Whether the part's entries of a shelf's codes with that side to move are due to the greatest scores of the moves, by
/// the last man's square, or tell checkmate and stalemate; `targeted` tells whether the positions have a target.
pub(crate) fn row_is_right(
    table: &Table,
    part: Part,
    shelf: &Shelf,
    scores: Row,
    zeroing: Row,
) -> bool
    requires there { HasColumn (column_of part) table.now }
    requires shelf { IsShelfOf shelf.now.targeted table.now.class shelf.now.number shelf.now.men }
    requires within { IsWithin table.now.class shelf.now.number }
    ensures { result ≡ true → (digit : ℕ) → digit < kind_digits shelf.now.men.last.kind →
        column_score table.now (column_of part)
        (code_of table.now.class (number_in table.now.class shelf.now.number shelf.now.side digit)) ≢ 0 →
        IsRightAtOf part table.now (code_of table.now.class
        (number_in table.now.class shelf.now.number shelf.now.side digit))
        (slice_index scores (digit + kind_less shelf.now.men.last.kind))
        (slice_index zeroing (digit + kind_less shelf.now.men.last.kind)) }
{
    codes_tell_turned_men();
    let own = row_of(
        table,
        column_of(part),
        &shelf.men,
        shelf.number,
        shelf.side,
        shelf.targeted,
    );
    // A row's scores are 0 where there is no move.
    let within = unlike(scores, Row::splat(0), own);
    if differ(own, due_in(part, scores), within)
        || !clock_is_due(table, part, shelf, zeroing, within)
    {
        return false;
    }
    // Told by these rows: a comparison that is kept across the branch would be taken apart lane by lane.
    let ends = lanes_of(unlike(own, within, own));
    ends_are_right(
        table,
        part,
        shelf.men.last,
        first_of(table.class(), shelf.number, shelf.side),
        ends,
    )
}
