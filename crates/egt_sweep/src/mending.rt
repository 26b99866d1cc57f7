//! Entries that are put where they are not due to the greatest scores of the moves.
ghost use Rattle.std.specs.Prelude.{◌≡◌, ◌≢◌, ◌+◌, ◌*◌, ◌<◌, ◌==◌, if◌then◌else◌, ℕ, true, slice_index};
ghost use Rattle.egt_sweep.specs.FillPrelude.{bit_at, IsPutAt, IsShelf};
ghost use Rattle.egt_sweep.specs.FillPrelude.{Has, kind_digits, AreShelvesOf, IsRightEndOf, AreRightRows, IsMendedAt};
ghost use Rattle.egt_sweep.specs.FillPrelude.{code_of, size_of, Zeroing, AreEnded, IsCodeIn, IsCodeOf, IsLaneOf};
ghost use Rattle.egt_sweep.specs.FillPrelude.{kind_less, number_in, HasColumn, column_of, IsRightRow, IsRowSeen};
ghost use Rattle.egt_sweep.specs.FillPrelude.{AreMenOf, table_in, IsToldAt, IsMaskOf, HasBytes, score_at, AllEnded};
ghost use Rattle.egt_check.specs.declared.part.Part.TheVariants as parts;
ghost use Rattle.egt_sweep.specs.declared.mending.Mended.TheVariants as mends;

use crate::ends::end_score;
use egt_blocks::blocks::begin_with;
use egt_blocks::digits::{digit_on, digits_of, first_square};
use egt_blocks::men::men_on;
use egt_board::{Square, SquareSet};
use egt_check::found::Found;
use egt_check::lane_sets::{mask_of, unlike};
use egt_check::part::{Part, column_of};
use egt_check::row_judging::{due_in, first_of};
use egt_check::shelf::Shelf;
use egt_index::laws::{codes_tell_turned_men, numbers_stand_for_codes};
use egt_index::{code_of, size};
use egt_lanes::score::due;
use egt_lanes::sets::lanes_of;
use egt_lanes::{Block, Row};
use egt_table::Column;
use std::simd::prelude::*;

/// Puts the entries with these scores at the shelf's codes with the last man on these squares.
/// False where no entries have them that tell one result, and where a code is no index: then all stays as it is.
fn put_lanes(
    table: &mut Found,
    part: Part,
    shelf: &Shelf,
    lanes: SquareSet,
    scores: Row,
    clocks: Row,
) -> bool
    requires shelf { IsShelf table.old.class shelf.now }
    requires there { HasColumn (column_of part) table.old }
    requires bytes { HasBytes (table_in part table.old) }
    ensures mended { IsMendedAt part (IsLaneOf table.old.class shelf.now lanes) table.old table.new }
    ensures told { result ≡ true → (digit : ℕ) → digit < kind_digits shelf.now.men.last.kind →
        Has lanes (digit + kind_less shelf.now.men.last.kind) →
        IsToldAt part table.new (code_of table.old.class
        (number_in table.old.class shelf.now.number shelf.now.side digit))
        (slice_index scores (digit + kind_less shelf.now.men.last.kind))
        (slice_index clocks (digit + kind_less shelf.now.men.last.kind)) }
    ensures put { result ≡ true → (digit : ℕ) → digit < kind_digits shelf.now.men.last.kind →
        Has lanes (digit + kind_less shelf.now.men.last.kind) →
        IsPutAt part table.new (code_of table.old.class
        (number_in table.old.class shelf.now.number shelf.now.side digit))
        (slice_index scores (digit + kind_less shelf.now.men.last.kind))
        (slice_index clocks (digit + kind_less shelf.now.men.last.kind)) }
{
    let _class = table.class();
    table.put(part, shelf, lanes, mask_of(lanes), scores, clocks)
}

/// The squares at which the zeroing column, which is put with the mate column, is not due to these scores.
fn wrong_clocks(table: &Found, part: Part, shelf: &Shelf, clocks: Row) -> SquareSet
    requires shelf { IsShelf table.now.class shelf.now }
    ensures { (digit : ℕ) → digit < kind_digits shelf.now.men.last.kind →
        bit_at result.bits (digit + kind_less shelf.now.men.last.kind) ≡ 0 →
        part ≡ parts.Values → score_at table.now Zeroing
        (code_of table.now.class (number_in table.now.class shelf.now.number shelf.now.side digit)) ≡ slice_index
        clocks (digit + kind_less shelf.now.men.last.kind) }
{
    codes_tell_turned_men();
    match part {
        Part::Values => {
            let own = table.row(
                Column::Zeroing,
                &shelf.men,
                shelf.number,
                shelf.side,
                shelf.targeted,
            );
            lanes_of(unlike(own, clocks, Row::splat(1)))
        }
        Part::Reach => SquareSet::EMPTY,
    }
}

/// Sees that the code's position, with the last man on the square of this digit, is checkmate or stalemate, and puts
/// the entries that tell it. False where it has a move.
fn see_end(
    table: &mut Found,
    part: Part,
    shelf: &Shelf,
    digit: u32,
    square: Square,
    code: u32,
) -> bool
    requires shelf { IsShelf table.old.class shelf.now }
    requires there { HasColumn (column_of part) table.old }
    requires bytes { HasBytes (table_in part table.old) }
    requires below { digit < kind_digits shelf.now.men.last.kind }
    requires on { digit + kind_less shelf.now.men.last.kind ≡ square }
    requires code { code ≡ code_of table.old.class (number_in table.old.class shelf.now.number shelf.now.side digit) }
    requires within { code < size_of table.old.class }
    ensures mended { IsMendedAt part (λ i. i ≡ code) table.old table.new }
    ensures right { result ≡ true → IsRightEndOf part table.new code }
{
    let _class = table.class();
    let Some(score) = end_score(table.class(), code) else {
        return false;
    };
    let lanes = SquareSet::EMPTY.with(square);
    let scores = Row::splat(score);
    put_lanes(table, part, shelf, lanes, scores, scores)
}

/// Sees that the entries tell checkmate and stalemate at the shelf's codes with the last man on these squares, and puts
/// those of checkmate where they do not. False where some position there has a move.
fn see_ends(table: &mut Found, part: Part, shelf: &Shelf, ends: SquareSet) -> bool
    requires shelf { IsShelf table.old.class shelf.now }
    requires there { HasColumn (column_of part) table.old }
    requires bytes { HasBytes (table_in part table.old) }
    ensures mended { IsMendedAt part (IsLaneOf table.old.class shelf.now ends) table.old table.new }
    ensures right { result ≡ true → AreEnded part table.new shelf.now ends }
{
    numbers_stand_for_codes();
    let class = table.class();
    let _size = size(class);
    let first = first_of(class, shelf.number, shelf.side);
    let mut rest = ends;
    while let Some(square) = rest.pop_first() {
        let Some(digit) = digit_on(shelf.men.last, square) else {
            return false;
        };
        let code = code_of(class, first + 2 * digit);
        if !see_end(table, part, shelf, digit, square, code) {
            return false;
        }
    }
    true
}

/// What a look came to.
#[derive(Clone, Copy)]
pub(crate) enum Mended {
    /// All entries were due.
    Due,
    /// Others were put.
    Put,
    /// The entries are not told: some score has none.
    Untold,
}

/// The last man's squares at which the entries of a row are not due to the greatest scores of the moves, and those at
/// which there is no move and that `ended` lacks.
fn row_seen(
    table: &Found,
    part: Part,
    shelf: &Shelf,
    scores: Row,
    zeroing: Row,
    ended: SquareSet,
) -> (SquareSet, SquareSet)
    requires shelf { IsShelf table.now.class shelf.now }
    requires there { HasColumn (column_of part) table.now }
    ensures { IsRowSeen part table.now shelf.now scores zeroing ended result.0 result.1 }
{
    codes_tell_turned_men();
    let own = table.row(
        column_of(part),
        &shelf.men,
        shelf.number,
        shelf.side,
        shelf.targeted,
    );
    // Each comparison of rows becomes a set at once: LLVM takes one that it keeps across a branch apart, square by
    // square.
    let there = lanes_of(own);
    let moving = there.intersection(lanes_of(scores));
    let mates = lanes_of(unlike(own, due_in(part, scores), Row::splat(1)));
    let wrong = mates.union(wrong_clocks(table, part, shelf, due(zeroing)));
    (
        wrong.intersection(moving),
        there.difference(moving).difference(ended),
    )
}

/// Puts what is due to the greatest scores of the moves at the shelf's codes that are indexes. Where there is no move,
/// the entries tell checkmate or stalemate from the first look on, and `ended` has the last man's square.
pub(crate) fn mend_row(
    table: &mut Found,
    part: Part,
    shelf: &Shelf,
    scores: Row,
    zeroing: Row,
    ended: &mut SquareSet,
) -> Mended
    requires shelf { IsShelf table.old.class shelf.now }
    requires there { HasColumn (column_of part) table.old }
    requires bytes { HasBytes (table_in part table.old) }
    requires ended { AreEnded part table.old shelf.now ended.old }
    ensures mended { IsMendedAt part (IsCodeOf table.old.class shelf.now) table.old table.new }
    ensures due { result ≡ mends.Due → table.new ≡ table.old }
    ensures ended { result ≢ mends.Untold → AreEnded part table.new shelf.now ended.new }
    ensures right { result ≢ mends.Untold → IsRightRow part table.new shelf.now scores zeroing }
{
    numbers_stand_for_codes();
    let _class = table.class();
    let (lanes, ends) = row_seen(table, part, shelf, scores, zeroing, *ended);
    if lanes.is_empty() && ends.is_empty() {
        return Mended::Due;
    }
    let seen = ended.union(ends);
    // What was seen to have no move has none.
    if !lanes.intersection(seen).is_empty() {
        return Mended::Untold;
    }
    if !see_ends(table, part, shelf, ends) {
        return Mended::Untold;
    }
    *ended = seen;
    if put_lanes(
        table,
        part,
        shelf,
        lanes,
        due_in(part, scores),
        due(zeroing),
    ) {
        Mended::Put
    } else {
        Mended::Untold
    }
}

/// Puts what is due to the greatest scores of the moves at the codes of the shelves of these men from this one on, one
/// for each digit of the first man; `ended` has for each of his squares those of the last man at which there is no
/// move.
pub(crate) fn mend_shelves(
    table: &mut Found,
    part: Part,
    shelves: &Shelf,
    scores: &Block,
    zeroing: &Block,
    ended: &mut [SquareSet; 64],
) -> Mended
    requires men { AreMenOf table.old.class shelves.now.men }
    requires room { shelves.now.number + 64 < 4294967296 }
    requires there { HasColumn (column_of part) table.old }
    requires bytes { HasBytes (table_in part table.old) }
    requires ended { AllEnded part table.old shelves.now ended.old }
    ensures mended { IsMendedAt part (IsCodeIn table.old.class shelves.now) table.old table.new }
    ensures due { result ≡ mends.Due → table.new ≡ table.old }
    ensures shelves { result ≢ mends.Untold →
        AreShelvesOf shelves.now.targeted table.old.class shelves.now.men shelves.now.number }
    ensures ended { result ≢ mends.Untold → AllEnded part table.new shelves.now ended.new }
    ensures right { result ≢ mends.Untold →
        AreRightRows part table.new shelves.now scores.now zeroing.now (kind_digits shelves.now.men.first.kind) }
{
    numbers_stand_for_codes();
    if !begin_with(
        table.class(),
        &shelves.men,
        shelves.targeted,
        shelves.number,
    ) {
        return Mended::Untold;
    }
    let from = first_square(shelves.men.first);
    let mut found = Mended::Due;
    for digit in 0..digits_of(shelves.men.first) {
        let square = from + digit;
        let row = usize::from(square);
        let shelf = Shelf {
            number: shelves.number + u32::from(digit),
            men: men_on(&shelves.men, Square::at(square)),
            side: shelves.side,
            targeted: shelves.targeted,
        };
        let mut here = ended[row];
        let row_found = mend_row(table, part, &shelf, scores[row], zeroing[row], &mut here);
        ended[row] = here;
        match row_found {
            Mended::Due => {}
            Mended::Put => found = Mended::Put,
            Mended::Untold => return Mended::Untold,
        }
    }
    found
}
