//! The scores of the positions after the last man beside the kings was taken.
ghost use Rattle.std.specs.Prelude.{◌≡◌, ◌<◌, ℕ, true, slice_index};
ghost use Rattle.egt_blocks.specs.Prelude.{Reaches, other_side, turned_man, IsLoneMan, IsSomeTurnedCode, at, IsRaised};
ghost use Rattle.egt_blocks.specs.Prelude.{IsBesideKing, with_king, AreLeftCodes, IsPastKings, left_of, stand_left};
ghost use Rattle.egt_blocks.specs.Prelude.{IsRead};

use crate::blocks::nothing;
use crate::king_blocks::beside_king;
use crate::lone_rows::{LoneMen, read_lone};
use crate::men::{kings_of, with_king};
use crate::own_men::{is_of, turned_man};
use crate::scored::LoneScores;
use egt_board::attack_lines::reach_past;
use egt_board::{Side, Square};
use egt_index::ShelfMen;
use egt_lanes::block::raise_transposed;
use egt_lanes::row::greater;
use egt_lanes::sets::kept;
use egt_lanes::{Block, Row};
use egt_table::Column;
use std::simd::prelude::*;

/// The scores of the positions with the first man alone beside the kings, the other side to move, by his square. False
/// where the source does not tell.
pub fn read_left<S: LoneScores>(
    source: &S,
    column: Column,
    flips: bool,
    men: &ShelfMen,
    side: Side,
    out: &mut Row,
) -> bool
    requires there { S.has source.now column }
    requires lone { IsLoneMan (S.number source.now) (turned_man flips men.now.first) }
    ensures { result ≡ true → (s : ℕ) → s < 64 →
        IsRead (S.number source.now) (S.worth source.now column) flips
        (stand_left flips (left_of men.now men.now.first s)) (other_side side) (slice_index out.new s) }
{
    let there = LoneMen {
        white: if flips { men.black } else { men.white },
        black: if flips { men.white } else { men.black },
        man: turned_man(men.first, flips),
    };
    read_lone(source, column, &there, flips, side.other(), out)
}

/// The scores where that side's king takes the last man: a row for each square on which it does, a lane for each of the
/// first man's. False where the source does not tell.
fn read_king_takes<S: LoneScores>(
    source: &S,
    column: Column,
    flips: bool,
    men: &ShelfMen,
    side: Side,
    out: &mut Block,
) -> bool
    requires there { S.has source.now column }
    requires lone { IsLoneMan (S.number source.now) (turned_man flips men.now.first) }
    ensures { result ≡ true → (b a : ℕ) → b < 64 → a < 64 →
        IsRaised 0 (λ code. IsBesideKing men.now side b ×
        IsSomeTurnedCode (S.number source.now) code flips
        (stand_left flips (left_of (with_king men.now side b) men.now.first a)) (other_side side))
        (S.worth source.now column) (at out.new b a) }
{
    *out = nothing();
    let mut rest = beside_king(men, side);
    while let Some(to) = rest.pop_first() {
        let stepped = with_king(men, side, to);
        let mut row = Row::splat(0);
        if !read_left(source, column, flips, &stepped, side, &mut row) {
            return false;
        }
        out[usize::from(to.number())] = row;
    }
    true
}

/// Raises the scores to those where the first man takes: from the square of the row, on that of the lane.
pub fn raise_takes(men: &ShelfMen, scores: &Row, out: &mut Block)
    ensures { (a b : ℕ) → a < 64 → b < 64 →
        IsRaised (at out.old a b) (λ t. (t ≡ b) × Reaches (IsPastKings men.now) men.now.first a t)
        (λ t. slice_index scores.now t) (at out.new a b) }
{
    let kings = kings_of(men);
    for a in 0..64u8 {
        let row = a as usize;
        let reached = reach_past(men.first, Square::at(a), kings);
        out[row] = greater(out[row], kept(*scores, reached));
    }
}

/// The scores of the positions after that side took the last man, by the king or by the first man. False where the
/// source does not tell.
pub fn taken_block<S: LoneScores>(
    source: &S,
    column: Column,
    flips: bool,
    men: &ShelfMen,
    side: Side,
    out: &mut Block,
) -> bool
    requires there { S.has source.now column }
    requires lone { IsLoneMan (S.number source.now) (turned_man flips men.now.first) }
    ensures { result ≡ true → (a b : ℕ) → a < 64 → b < 64 →
        IsRaised 0 (AreLeftCodes (S.number source.now) flips men.now side a b) (S.worth source.now column)
        (at out.new a b) }
{
    *out = nothing();
    if !is_of(men.last, side.other()) {
        return true;
    }
    let mut beside = nothing();
    if !read_king_takes(source, column, flips, men, side, &mut beside) {
        return false;
    }
    raise_transposed(out, &beside);
    if !is_of(men.first, side) {
        return true;
    }
    let mut scores = Row::splat(0);
    if !read_left(source, column, flips, men, side, &mut scores) {
        return false;
    }
    raise_takes(men, &scores, out);
    true
}
