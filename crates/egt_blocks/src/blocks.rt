//! The scores of the positions of a class with two men beside the kings, whose kings stand on two squares: a row for
//! each square of the first man, a lane for each of the last. Each code has some turn of these men; codes that are not
//! least score nothing. So the codes after a turn are not read where the kings tell that all of them are void. In the
//! block of KQKR's kings on b1 and e5, the queen on d1 and the rook on h8 score in row 3, lane 63.
ghost use Rattle.std.specs.Prelude.{◌≡◌, ◌%◌, ◌<◌, ◌+◌, ℕ, Bool, false, true, if◌then◌else◌, max, not, IfSome};
ghost use Rattle.std.specs.Prelude.{slice_index};
ghost use Rattle.egt_blocks.specs.Prelude.{Has, Side, has_equal_sides, material_of, symmetries, IsVoid, AreMenOf};
ghost use Rattle.egt_blocks.specs.Prelude.{has_pawns, IsTurnedCodeWith, at, stand_on, AreShelvesOf, IsRaisedAfter};
ghost use Rattle.egt_blocks.specs.Prelude.{IsRaisedHome, men_across, turned_from, IsReadWith, ScoresNoVoids};

use crate::digits::{digits_of, first_square};
use crate::men::{are_equal, men_across, men_on, side_after, turned_from};
use crate::own_men::may_stand;
use crate::scored::ShelfScores;
use egt_board::{Side, Square, SquareSet};
use egt_class::Class;
use egt_index::home::home;
use egt_index::laws::codes_tell_turned_men;
use egt_index::men::has_equal_sides;
use egt_index::void_by_kings::is_void_after;
use egt_index::{ShelfMen, has_pawns, last_digits, shelf_of, size};
use egt_lanes::block::{raise_to_max, raise_transposed};
use egt_lanes::turn::turned;
use egt_lanes::{Block, Row};
use egt_table::Column;
use std::simd::prelude::*;

/// Which of a class's positions are read, and what of them: their scores in the column, with this side to move, in
/// colours exchanged where `flips`, and a target where one was passed.
#[derive(Clone, Copy)]
pub struct Reading {
    pub column: Column,
    pub flips: bool,
    pub targeted: bool,
    pub side: Side,
}

/// The first shelf of the men, with a target where one was passed: there is one for each digit of the first man, in
/// their order. `None` where there are none.
fn shelves_of(class: Class, men: &ShelfMen, targeted: bool) -> Option<u32>
    requires men { AreMenOf class men.now }
    ensures shelves { IfSome result (AreShelvesOf targeted class men.now) }
    ensures room { IfSome result (λ first. first + 64 < 4294967296) }
{
    let on = Square::at(first_square(men.first));
    let first = shelf_of(class, &men_on(men, on), targeted)?;
    let shelves = size(class) / (2 * last_digits(class));
    let last = shelves.checked_sub(u32::from(digits_of(men.first)))?;
    if last < first {
        return None;
    }
    Some(first)
}

/// Whether the shelves of the men begin with this one.
pub fn begin_with(class: Class, men: &ShelfMen, targeted: bool, first: u32) -> bool
    requires men { AreMenOf class men.now }
    ensures { result ≡ true → AreShelvesOf targeted class men.now first }
{
    match shelves_of(class, men, targeted) {
        Some(shelf) => shelf == first,
        None => false,
    }
}

/// The scores of the codes after the turn, with the first man on this square. Nothing is read where the square is none
/// of these rows.
#[inline(always)]
fn row_after<S: ShelfScores>(
    source: &S,
    reading: &Reading,
    men: &ShelfMen,
    rows: SquareSet,
    first: u32,
    on: Square,
    turn: u8,
) -> Row
    requires there { S.has source.now reading.now.column }
    requires turn { turn < 16 }
    requires shelves { AreShelvesOf reading.now.targeted (S.number source.now) (turned_from men.now on turn) first }
    requires room { first + 64 < 4294967296 }
    ensures { (b : ℕ) → b < 64 → Has rows on → IsRaisedAfter reading.now.targeted (S.number source.now)
        (S.worth source.now reading.now.column) turn (stand_on men.now on b) reading.now.side 0 (slice_index result b) }
{
    codes_tell_turned_men();
    if !rows.contains(on) {
        return Row::splat(0);
    }
    let there = turned_from(men, on, turn);
    if !may_stand(there.first, there.on) {
        return Row::splat(0);
    }
    let shelf = first + u32::from(there.on.number() - first_square(there.first));
    let side = side_after(reading.side, turn);
    let row = source.shelf_row(reading.column, &there, shelf, side, reading.targeted);
    turned(row, turn)
}

/// Whether the kings tell that the codes after the turn are void, wherever the men beside them stand.
fn are_void_after(class: Class, men: &ShelfMen, turn: u8) -> bool
    requires { turn < 16 }
    ensures { result ≡ true → (targeted : Bool) (code a b : ℕ) (side : Side) → a < 64 → b < 64 →
        IsTurnedCodeWith targeted class turn code (stand_on men.now a b) side → IsVoid class code }
{
    let _numbers = (men.white.number(), men.black.number());
    is_void_after(class, men.white, men.black, turn)
}

/// Writes the scores of the codes after the turn to these rows of the block. False where the source does not tell.
fn turned_block<S: ShelfScores>(
    source: &S,
    reading: &Reading,
    men: &ShelfMen,
    rows: SquareSet,
    turn: u8,
    out: &mut Block,
) -> bool
    requires there { S.has source.now reading.now.column }
    requires voids { ScoresNoVoids (S.number source.now) (S.worth source.now reading.now.column) }
    requires men { AreMenOf (S.number source.now) men.now }
    requires turn { turn < 16 }
    requires keeps { turn % 8 < symmetries (has_pawns (material_of (S.number source.now))) }
    ensures { result ≡ true → (a b : ℕ) → a < 64 → b < 64 → Has rows a →
        IsRaisedAfter reading.now.targeted (S.number source.now)
        (S.worth source.now reading.now.column) turn (stand_on men.now a b) reading.now.side 0 (at out.new a b) }
{
    let class = source.class();
    // Void codes score nothing.
    if are_void_after(class, men, turn) {
        *out = nothing();
        return true;
    }
    let there = turned_from(men, men.on, turn);
    let Some(first) = shelves_of(class, &there, reading.targeted) else {
        return false;
    };
    // Each row is written once, since the block is seldom in the cache.
    for a in 0..64u8 {
        let on = Square::at(a);
        out[usize::from(a)] = row_after(source, reading, men, rows, first, on, turn);
    }
    true
}

/// Writes the scores of the codes after the turns that exchange colours so and bring the white king home to these rows
/// of the block. False where the source does not tell.
fn home_block<S: ShelfScores>(
    source: &S,
    reading: &Reading,
    men: &ShelfMen,
    rows: SquareSet,
    out: &mut Block,
) -> bool
    requires there { S.has source.now reading.now.column }
    requires voids { ScoresNoVoids (S.number source.now) (S.worth source.now reading.now.column) }
    requires men { AreMenOf (S.number source.now) men.now }
    ensures { result ≡ true → (a b : ℕ) → a < 64 → b < 64 → Has rows a →
        IsRaisedHome reading.now.targeted (S.number source.now)
        (S.worth source.now reading.now.column) reading.now.flips (stand_on men.now a b) reading.now.side 0
        (at out.new a b) }
{
    let (first, second) = home(has_pawns(source.class()), reading.flips, men.white);
    if !turned_block(source, reading, men, rows, first, out) {
        return false;
    }
    match second {
        Some(second) => {
            let mut other = nothing();
            let told = turned_block(source, reading, men, rows, second, &mut other);
            raise_to_max(out, &other);
            told
        }
        None => true,
    }
}

/// A block of nothing.
#[inline(always)]
pub fn nothing() -> Block
    ensures { (a b : ℕ) → a < 64 → b < 64 → at result a b ≡ 0 }
{
    [Row::splat(0); 64]
}

/// The rows that are read for these: all of them where the men are equal, since either of them is the first.
#[tactic(auto, using(crate::proofs::BlockRaising::all_squares))]
fn rows_read(equal: bool, rows: SquareSet) -> SquareSet
    ensures rows { (s : ℕ) → Has rows s → s < 64 → Has result s }
    ensures all { equal ≡ true → (s : ℕ) → s < 64 → Has result s }
{
    if equal { SquareSet::ALL } else { rows }
}

/// Raises the scores to those in the other order of the men, where these are equal.
fn raise_order(equal: bool, out: &mut Block)
    ensures { (a b : ℕ) → a < 64 → b < 64 →
        at out.new a b ≡ (if equal then max (at out.old a b) (at out.old b a) else at out.old a b) }
{
    if equal {
        let copy = *out;
        raise_transposed(out, &copy);
    }
}

/// Raises the scores, where both sides have the same men, to those of the codes in the other colours, which are told
/// with rows for the last man's square and lanes for the first one's. False where the source does not tell.
fn raise_across<S: ShelfScores>(
    source: &S,
    reading: &Reading,
    men: &ShelfMen,
    out: &mut Block,
) -> bool
    requires there { S.has source.now reading.now.column }
    requires voids { ScoresNoVoids (S.number source.now) (S.worth source.now reading.now.column) }
    requires men { AreMenOf (S.number source.now) men.now }
    ensures raised { result ≡ true → has_equal_sides (S.number source.now) ≡ true → (a b : ℕ) → a < 64 → b < 64 →
        IsRaisedHome reading.now.targeted (S.number source.now) (S.worth source.now reading.now.column)
        (not reading.now.flips)
        (stand_on (men_across men.now) b a) reading.now.side (at out.old a b) (at out.new a b) }
    ensures same { has_equal_sides (S.number source.now) ≡ false → out.new ≡ out.old }
{
    if !has_equal_sides(source.class()) {
        return true;
    }
    let exchanged = Reading {
        flips: !reading.flips,
        ..*reading
    };
    let mut across = nothing();
    let told = home_block(
        source,
        &exchanged,
        &men_across(men),
        SquareSet::ALL,
        &mut across,
    );
    raise_transposed(out, &across);
    told
}

/// The scores of the positions with these men whose squares beside the kings are those of these rows and of all lanes;
/// other rows may lack some. False where the source does not tell.
pub fn read_block<S: ShelfScores>(
    source: &S,
    reading: &Reading,
    men: &ShelfMen,
    rows: SquareSet,
    out: &mut Block,
) -> bool
    requires there { S.has source.now reading.now.column }
    requires voids { ScoresNoVoids (S.number source.now) (S.worth source.now reading.now.column) }
    requires men { AreMenOf (S.number source.now) men.now }
    ensures { result ≡ true → (a b : ℕ) → a < 64 → b < 64 → Has rows a →
        IsReadWith reading.now.targeted (S.number source.now)
        (S.worth source.now reading.now.column) reading.now.flips (stand_on men.now a b) reading.now.side
        (at out.new a b) }
{
    let equal = are_equal(men);
    if !home_block(source, reading, men, rows_read(equal, rows), out) {
        return false;
    }
    raise_order(equal, out);
    raise_across(source, reading, men, out)
}
