//! The scores of the positions after the last man beside the kings, a pawn, advances or is promoted where he takes the
//! first.
ghost use Rattle.std.specs.Prelude.{◌≡◌, ◌↔◌, ◌<◌, ◌==◌, ℕ, true, false, if◌then◌else◌, IfSome};
ghost use Rattle.egt_blocks.specs.Prelude.{Advances, last_rank, rank_of, Has, turned_man, IsLoneMan, AreMenOf};
ghost use Rattle.egt_blocks.specs.Prelude.{AdvancesBy, at, IsRaised, FitsPromotion, IsOfficer, arriving, AreLeapCodes};
ghost use Rattle.egt_blocks.specs.Prelude.{AreStepCodes, AreStill, IsBesideWhere, leap_rank, AreAdvancedCodes};
ghost use Rattle.egt_blocks.specs.Prelude.{ArePromotedCodes, men_after, men_two, stand_on, IsClear, IsPastKings};
ghost use Rattle.egt_blocks.specs.Prelude.{IsReadWith, ScoresNoVoids};

use crate::blocks::{Reading, nothing, read_block};
use crate::men::{kings_of, men_swapped};
use crate::own_men::{is_of, is_pawn_of, turned_man};
use crate::scored::{LoneScores, ShelfScores};
use crate::taken_blocks::{raise_takes, read_left};
use egt_board::pawn::squares_beside;
use egt_board::{Kind, Man, Side, Square, SquareSet};
use egt_index::ShelfMen;
use egt_lanes::block::raise_transposed;
use egt_lanes::sets::{kept, rank_squares};
use egt_lanes::shift::{advanced, advanced_by_one, advanced_by_two};
use egt_lanes::{Block, Row};
use egt_table::Column;
use std::simd::prelude::*;

/// These two beside the kings, in colours exchanged where `flips`.
fn men_two(flips: bool, men: &ShelfMen, one: Man, last: Man) -> ShelfMen
    ensures { result ≡ men_two flips men.now one last }
{
    ShelfMen {
        white: if flips { men.black } else { men.white },
        black: if flips { men.white } else { men.black },
        first: turned_man(one, flips),
        on: men.on,
        last: turned_man(last, flips),
    }
}

/// The men where the last one is now this man, whom the class names before the first where `before`.
fn men_after(before: bool, flips: bool, men: &ShelfMen, man: Man) -> ShelfMen
    ensures { result ≡ men_after before flips men.now man }
{
    if before {
        men_two(flips, men, man, men.first)
    } else {
        men_two(flips, men, men.first, man)
    }
}

/// The squares on which that side's pawn arrives: on its last rank where he is promoted, else on the others.
fn arrivals(promo: Option<Kind>, side: Side) -> SquareSet
    requires { IfSome promo IsOfficer }
    ensures { (t : ℕ) → t < 64 → Has result t ↔ FitsPromotion (rank_of t == last_rank side) promo }
{
    let last = rank_squares(side.last_rank());
    match promo {
        Some(_kind) => last,
        None => SquareSet::ALL.difference(last),
    }
}

/// The squares on which no king stands.
pub(crate) fn past_kings(men: &ShelfMen) -> SquareSet
    ensures { (u : ℕ) → u < 64 → Has result u ↔ IsPastKings men.now u }
{
    SquareSet::ALL.difference(kings_of(men))
}

/// The scores of the positions with these men in these rows and lanes, which are exchanged where `before`. False where
/// the source does not tell.
fn read_after<S: ShelfScores>(
    source: &S,
    reading: &Reading,
    before: bool,
    men: &ShelfMen,
    rows: SquareSet,
    lanes: SquareSet,
    out: &mut Block,
) -> bool
    requires there { S.has source.now reading.now.column }
    requires voids { ScoresNoVoids (S.number source.now) (S.worth source.now reading.now.column) }
    requires men { AreMenOf (S.number source.now) men.now }
    ensures { result ≡ true → (a t : ℕ) → a < 64 → t < 64 → Has rows a → Has lanes t → IsReadWith reading.now.targeted
        (S.number source.now) (S.worth source.now reading.now.column) reading.now.flips
        (if before then stand_on men.now t a else stand_on men.now a t) reading.now.side (at out.new a t) }
{
    if !before {
        return read_block(source, reading, men, rows, out);
    }
    let mut scores = nothing();
    if !read_block(source, reading, men, lanes, &mut scores) {
        return false;
    }
    *out = nothing();
    raise_transposed(out, &scores);
    true
}

/// Raises each row to the scores where the last man, a pawn of that side, advances to one of these squares.
fn raise_advances(men: &ShelfMen, arrivals: SquareSet, side: Side, scores: &Block, out: &mut Block)
    ensures { (a b : ℕ) → a < 64 → b < 64 →
        IsRaised (at out.old a b) (λ t. Advances (IsClear men.now a) side b t × Has arrivals t)
        (λ t. at scores.now a t) (at out.new a b) }
{
    let open = past_kings(men);
    for a in 0..64u8 {
        let row = a as usize;
        let free = open.without(Square::at(a));
        out[row] = advanced(out[row], kept(scores[row], arrivals), free, side);
    }
}

/// The scores of the positions after the last man, a pawn of the same side, advanced to the last rank and was promoted
/// to this man. False where the source does not tell.
pub fn promotion_block<S: ShelfScores>(
    source: &S,
    column: Column,
    before: bool,
    flips: bool,
    men: &ShelfMen,
    man: Man,
    out: &mut Block,
) -> bool
    requires there { S.has source.now column }
    requires voids { ScoresNoVoids (S.number source.now) (S.worth source.now column) }
    requires men { AreMenOf (S.number source.now)
        (men_after before flips men.now (arriving men.now.last (Some man.kind))) }
    requires officer { IsOfficer man.kind }
    ensures { result ≡ true → (a b : ℕ) → a < 64 → b < 64 →
        IsRaised 0 (AreAdvancedCodes (S.number source.now) before flips men.now man.side (Some man.kind) a b)
        (S.worth source.now column) (at out.new a b) }
{
    *out = nothing();
    if !is_pawn_of(men.last, man.side) {
        return true;
    }
    let reading = Reading {
        column,
        flips,
        targeted: false,
        side: man.side.other(),
    };
    let arrivals = arrivals(Some(man.kind), man.side);
    let after = men_after(before, flips, men, man);
    let mut scores = nothing();
    if !read_after(
        source,
        &reading,
        before,
        &after,
        SquareSet::ALL,
        arrivals,
        &mut scores,
    ) {
        return false;
    }
    raise_advances(men, arrivals, man.side, &scores, out);
    true
}

/// The squares beside this one, or the others.
fn squares_where(beside: bool, square: Square) -> SquareSet
    ensures { (t : ℕ) → t < 64 → Has result t ↔ IsBesideWhere beside square t }
{
    let here = squares_beside(square);
    if beside {
        here
    } else {
        SquareSet::ALL.difference(here)
    }
}

/// Raises each row to the scores where the last man, a pawn of that side, advances by one square to one of these.
fn raise_steps(men: &ShelfMen, arrivals: SquareSet, side: Side, scores: &Block, out: &mut Block)
    ensures { (a b : ℕ) → a < 64 → b < 64 →
        IsRaised (at out.old a b) (λ t. AdvancesBy 1 (IsClear men.now a) side b t × Has arrivals t)
        (λ t. at scores.now a t) (at out.new a b) }
{
    let open = past_kings(men);
    for a in 0..64u8 {
        let row = a as usize;
        let free = open.without(Square::at(a));
        out[row] = advanced_by_one(out[row], kept(scores[row], arrivals), free, side);
    }
}

/// Raises each row to the scores where the last man, a pawn of that side, advances by two squares to beside the first
/// man, or to elsewhere.
fn raise_leaps(men: &ShelfMen, beside: bool, side: Side, scores: &Block, out: &mut Block)
    ensures { (a b : ℕ) → a < 64 → b < 64 →
        IsRaised (at out.old a b) (λ t. AdvancesBy 2 (IsClear men.now a) side b t × IsBesideWhere beside a t)
        (λ t. at scores.now a t) (at out.new a b) }
{
    let open = past_kings(men);
    for a in 0..64u8 {
        let row = a as usize;
        let square = Square::at(a);
        let free = open.without(square);
        let arrivals = squares_where(beside, square);
        out[row] = advanced_by_two(out[row], kept(scores[row], arrivals), free, side);
    }
}

/// The scores of the positions after the last man, a pawn of that side, advanced and left no target: `still` are those
/// of the men on their squares, the other side to move. The contract alone reads the source.
pub fn step_block<S: ShelfScores>(
    source: &S,
    column: Column,
    first: bool,
    men: &ShelfMen,
    side: Side,
    still: &Block,
    out: &mut Block,
)
    requires { AreStill (S.number source.now) (S.worth source.now column) first men.now side still.now }
    ensures { (a b : ℕ) → a < 64 → b < 64 →
        IsRaised 0 (AreStepCodes (S.number source.now) first men.now side a b) (S.worth source.now column)
        (at out.new a b) }
{
    *out = nothing();
    if !is_pawn_of(men.last, side) {
        return;
    }
    let arrivals = arrivals(None, side);
    if is_pawn_of(men.first, side.other()) {
        raise_steps(men, arrivals, side, still, out);
        raise_leaps(men, false, side, still, out);
    } else {
        raise_advances(men, arrivals, side, still, out);
    }
}

/// The squares to which that side's pawns advance by two squares.
fn leap_squares(side: Side) -> SquareSet
    ensures { (t : ℕ) → t < 64 → Has result t ↔ (rank_of t ≡ leap_rank side) }
{
    match side {
        Side::White => rank_squares(3),
        Side::Black => rank_squares(4),
    }
}

/// The scores of the positions after the last man, a pawn of that side, advanced and left a target. False where the
/// source does not tell.
pub fn leap_block<S: ShelfScores>(
    source: &S,
    column: Column,
    first: bool,
    men: &ShelfMen,
    side: Side,
    out: &mut Block,
) -> bool
    requires there { S.has source.now column }
    requires voids { ScoresNoVoids (S.number source.now) (S.worth source.now column) }
    requires men { AreMenOf (S.number source.now) (men_after first false men.now men.now.last) }
    ensures { result ≡ true → (a b : ℕ) → a < 64 → b < 64 →
        IsRaised 0 (AreLeapCodes (S.number source.now) first men.now side a b) (S.worth source.now column)
        (at out.new a b) }
{
    *out = nothing();
    if !is_pawn_of(men.last, side) || !is_pawn_of(men.first, side.other()) {
        return true;
    }
    let reading = Reading {
        column,
        flips: false,
        targeted: true,
        side: side.other(),
    };
    // He who may take stands beside.
    let squares = leap_squares(side);
    let after = men_after(first, false, men, men.last);
    let mut scores = nothing();
    if !read_after(
        source,
        &reading,
        first,
        &after,
        squares,
        squares,
        &mut scores,
    ) {
        return false;
    }
    raise_leaps(men, true, side, &scores, out);
    true
}

/// The scores of the positions after the last man, a pawn of the same side, took the first on the last rank and was
/// promoted to this man. False where the source does not tell.
pub fn promoting_block<S: LoneScores>(
    source: &S,
    column: Column,
    flips: bool,
    men: &ShelfMen,
    man: Man,
    out: &mut Block,
) -> bool
    requires there { S.has source.now column }
    requires lone { IsLoneMan (S.number source.now) (turned_man flips man) }
    requires officer { IsOfficer man.kind }
    ensures { result ≡ true → (a b : ℕ) → a < 64 → b < 64 →
        IsRaised 0 (ArePromotedCodes (S.number source.now) flips men.now man.side man.kind a b)
        (S.worth source.now column) (at out.new a b) }
{
    *out = nothing();
    if !is_pawn_of(men.last, man.side) || !is_of(men.first, man.side.other()) {
        return true;
    }
    let promoted = ShelfMen { first: man, ..*men };
    let mut scores = Row::splat(0);
    if !read_left(source, column, flips, &promoted, man.side, &mut scores) {
        return false;
    }
    let arrived = kept(scores, rank_squares(man.side.last_rank()));
    let mut takes = nothing();
    raise_takes(&men_swapped(men), &arrived, &mut takes);
    raise_transposed(out, &takes);
    true
}
