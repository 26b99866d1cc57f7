//! The scores of the positions after each quiet step of a side, in classes with one man beside the kings: he is the
//! last of the men, and the lane is his square.
ghost use Rattle.std.specs.Prelude.{◌≡◌, ◌≢◌, ◌<◌, ℕ, true, slice_index};
ghost use Rattle.egt_blocks.specs.Prelude.{K, IsLoneMan, IsRaised, AreCodesAlone, AreKingCodesAlone, IsBesideKing};

use crate::advance_blocks::past_kings;
use crate::king_blocks::beside_king;
use crate::lone_rows::{LoneMen, read_lone};
use crate::men::with_king;
use crate::own_men::is_own_piece;
use crate::scored::LoneScores;
use egt_board::Side;
use egt_index::ShelfMen;
use egt_lanes::Row;
use egt_lanes::row::greater;
use egt_lanes::shift::last_man_raised;
use egt_table::Column;
use std::simd::prelude::*;

/// The scores after each step of that side's king, the other side to move. False where the source does not tell.
fn king_row<S: LoneScores>(
    source: &S,
    column: Column,
    men: &ShelfMen,
    side: Side,
    out: &mut Row,
) -> bool
    requires there { S.has source.now column }
    requires man { IsLoneMan (S.number source.now) men.now.last }
    ensures { result ≡ true → (s : ℕ) → s < 64 →
        IsRaised 0 (AreKingCodesAlone (S.number source.now) men.now side (IsBesideKing men.now side) s)
        (S.worth source.now column) (slice_index out.new s) }
{
    *out = Row::splat(0);
    let mut scores = Row::splat(0);
    let mut rest = beside_king(men, side);
    while let Some(to) = rest.pop_first() {
        let there = with_king(men, side, to);
        let stepped = LoneMen {
            white: there.white,
            black: there.black,
            man: there.last,
        };
        if !read_lone(source, column, &stepped, false, side.other(), &mut scores) {
            return false;
        }
        *out = greater(*out, scores);
    }
    true
}

/// The scores after each quiet step of that side, the other side to move. False where the source does not tell.
pub fn quiet_row<S: LoneScores>(
    source: &S,
    column: Column,
    men: &ShelfMen,
    side: Side,
    out: &mut Row,
) -> bool
    requires there { S.has source.now column }
    requires man { IsLoneMan (S.number source.now) men.now.last }
    requires last { men.now.last.kind ≢ K }
    ensures { result ≡ true → (s : ℕ) → s < 64 →
        IsRaised 0 (AreCodesAlone (S.number source.now) men.now side s) (S.worth source.now column)
        (slice_index out.new s) }
{
    if !king_row(source, column, men, side, out) {
        return false;
    }
    if !is_own_piece(men.last, side) {
        return true;
    }
    let still = LoneMen {
        white: men.white,
        black: men.black,
        man: men.last,
    };
    let mut scores = Row::splat(0);
    if !read_lone(source, column, &still, false, side.other(), &mut scores) {
        return false;
    }
    *out = last_man_raised(*out, scores, past_kings(men), men.last);
    true
}
