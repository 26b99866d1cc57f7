//! The scores of the positions of a class with one man beside the kings, by his square.
ghost use Rattle.std.specs.Prelude.{◌≡◌, ℕ, ◌<◌, false, true, slice_index};
ghost use Rattle.egt_blocks.specs.Prelude.{IsLoneMan, lone_stand, IsRaisedAfter, IsRead};

use crate::men::side_after;
use crate::scored::LoneScores;
use egt_board::{Man, Side, Square};
use egt_index::home::home;
use egt_index::laws::codes_tell_turned_men;
use egt_index::turning::turned_square;
use egt_index::{has_pawns, lone_row};
use egt_lanes::Row;
use egt_lanes::row::greater;
use egt_lanes::turn::turned;
use egt_table::Column;
use std::simd::prelude::*;

/// One man beside the kings, and where these stand.
#[derive(Clone, Copy)]
pub struct LoneMen {
    pub white: Square,
    pub black: Square,
    pub man: Man,
}

/// Raises the row to the scores of the codes after the turn. False where it does not tell.
fn raise_lone<S: LoneScores>(
    source: &S,
    column: Column,
    men: &LoneMen,
    side: Side,
    turn: u8,
    out: &mut Row,
) -> bool
    requires there { S.has source.now column }
    requires man { IsLoneMan (S.number source.now) men.now.man }
    requires turn { turn < 16 }
    ensures { result ≡ true → (s : ℕ) → s < 64 →
        IsRaisedAfter false (S.number source.now) (S.worth source.now column) turn
        (lone_stand men.now.white men.now.black men.now.man s) side (slice_index out.old s) (slice_index out.new s) }
{
    let white = turned_square(turn, men.white);
    let black = turned_square(turn, men.black);
    let Some(first) = lone_row(source.class(), men.man, white, black) else {
        return false;
    };
    let row = source.lone_row(column, men.man, white, black, first, side_after(side, turn));
    *out = greater(*out, turned(row, turn));
    true
}

/// The scores of the positions with these men, in colours exchanged where `flips`, by the square of the one beside the
/// kings. False where the source does not tell.
pub fn read_lone<S: LoneScores>(
    source: &S,
    column: Column,
    men: &LoneMen,
    flips: bool,
    side: Side,
    out: &mut Row,
) -> bool
    requires there { S.has source.now column }
    requires man { IsLoneMan (S.number source.now) men.now.man }
    ensures { result ≡ true → (s : ℕ) → s < 64 →
        IsRead (S.number source.now) (S.worth source.now column) flips
        (lone_stand men.now.white men.now.black men.now.man s) side (slice_index out.new s) }
{
    let _number = source.class().number();
    *out = Row::splat(0);
    let (first, second) = home(has_pawns(source.class()), flips, men.white);
    if !raise_lone(source, column, men, side, first, out) {
        return false;
    }
    match second {
        Some(second) => raise_lone(source, column, men, side, second, out),
        None => true,
    }
}
