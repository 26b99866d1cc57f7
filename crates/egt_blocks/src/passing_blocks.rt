//! The scores of the positions after the last man beside the kings, a pawn, took the first in passing.
ghost use Rattle.std.specs.Prelude.{◌≡◌, ◌<◌, ℕ, true, IfSome, IfNone, slice_index};
ghost use Rattle.egt_blocks.specs.Prelude.{ahead, turned_man, IsLoneMan, at, IsRaised, ArePassingCodes, IsAtPassed};
ghost use Rattle.egt_blocks.specs.Prelude.{IsPastPawns};

use crate::blocks::nothing;
use crate::men::men_swapped;
use crate::own_men::is_pawn_of;
use crate::scored::LoneScores;
use crate::taken_blocks::{raise_takes, read_left};
use egt_board::{Side, Square};
use egt_index::ShelfMen;
use egt_index::laws::codes_tell_turned_men;
use egt_lanes::block::raise_transposed;
use egt_lanes::{Block, Row};
use egt_table::Column;
use std::simd::prelude::*;

/// The square one ahead for that side, if a pawn may stand there.
fn passed_square(square: Square, side: Side) -> Option<Square>
    ensures is { IfSome result (λ t. t ≡ ahead side square) }
    ensures none { IfNone result (IsPastPawns (ahead side square)) }
{
    let number = square.number();
    match side {
        Side::White => (number < 48).then(|| Square::at(number + 8)),
        Side::Black => (number >= 16).then(|| Square::at(number - 8)),
    }
}

/// What stands in the row of the square that was passed; nothing where no pawn may stand there.
fn passed_row(square: Square, side: Side, arrived: &Block) -> Row
    ensures { (b : ℕ) → b < 64 → IsAtPassed side arrived.now square b (slice_index result b) }
{
    match passed_square(square, side) {
        Some(targeted) => arrived[targeted.number() as usize],
        None => Row::splat(0),
    }
}

/// Each row what stands in that of the square which a pawn of the other side on its own has passed.
fn take_passed(side: Side, arrived: &Block, out: &mut Block)
    ensures { (a b : ℕ) → a < 64 → b < 64 → IsAtPassed side arrived.now a b (at out.new a b) }
{
    for a in 0..64u8 {
        let row = a as usize;
        out[row] = passed_row(Square::at(a), side, arrived);
    }
}

/// The scores of the positions after the last man, a pawn of that side, took the first in passing, who is a pawn of the
/// other side and has just advanced by two squares. False where the source does not tell.
pub fn passing_block<S: LoneScores>(
    source: &S,
    column: Column,
    flips: bool,
    men: &ShelfMen,
    side: Side,
    out: &mut Block,
) -> bool
    requires there { S.has source.now column }
    requires lone { IsLoneMan (S.number source.now) (turned_man flips men.now.last) }
    ensures { result ≡ true → (a b : ℕ) → a < 64 → b < 64 →
        IsRaised 0 (ArePassingCodes (S.number source.now) flips men.now side a b) (S.worth source.now column)
        (at out.new a b) }
{
    codes_tell_turned_men();
    let _number = source.class().number();
    *out = nothing();
    if !is_pawn_of(men.last, side) || !is_pawn_of(men.first, side.other()) {
        return true;
    }
    let swapped = men_swapped(men);
    let mut scores = Row::splat(0);
    if !read_left(source, column, flips, &swapped, side, &mut scores) {
        return false;
    }
    let mut takes = nothing();
    raise_takes(&swapped, &scores, &mut takes);
    let mut arrived = nothing();
    raise_transposed(&mut arrived, &takes);
    take_passed(side, &arrived, out);
    true
}
