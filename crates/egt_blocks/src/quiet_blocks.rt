//! The scores of the positions after each quiet step of a side, of its king or of a piece, in classes with two men
//! beside the kings.
ghost use Rattle.std.specs.Prelude.{◌≡◌, ◌≢◌, ◌↔◌, ◌<◌, ℕ, false, true};
ghost use Rattle.egt_blocks.specs.Prelude.{bit_at, Reaches, other_side, Has, K, AreMenOf, at, IsPiece, IsRaised};
ghost use Rattle.egt_blocks.specs.Prelude.{AreKept, AreQuietCodes, IsClear, IsFirstStep, IsLastStep, ScoresNoVoids};

use crate::blocks::nothing;
use crate::kept_blocks::{BlockKey, raise_kept};
use crate::king_blocks::king_block;
use crate::men::kings_of;
use crate::own_men::is_own_piece;
use crate::scored::ShelfScores;
use egt_board::{Side, Square, SquareSet};
use egt_index::ShelfMen;
use egt_lanes::Block;
use egt_lanes::shift::last_man_raised;
use egt_lanes::walk::raise_rows;
use egt_table::Column;

/// All squares but the kings' and this one.
#[inline(always)]
fn clear_of(men: &ShelfMen, other: Square) -> SquareSet
    ensures { (u : ℕ) → u < 64 → Has result u ↔ IsClear men.now other u }
{
    SquareSet::ALL
        .without(men.white)
        .without(men.black)
        .without(other)
}

/// Raises the scores to those where a first man who is a piece of that side goes quietly.
fn raise_first(men: &ShelfMen, side: Side, scores: &Block, out: &mut Block)
    requires { men.now.first.kind ≢ K }
    ensures { (a b : ℕ) → a < 64 → b < 64 →
        IsRaised (at out.old a b) (IsFirstStep men.now side a b) (λ t. at scores.now t b) (at out.new a b) }
{
    if is_own_piece(men.first, side) {
        raise_rows(out, scores, men.first, kings_of(men));
    }
}

/// Raises each row to the scores where the last man goes quietly.
fn raise_lanes(men: &ShelfMen, scores: &Block, out: &mut Block)
    requires { IsPiece men.now.last.kind }
    ensures { (a b : ℕ) → a < 64 → b < 64 →
        IsRaised (at out.old a b) (λ t. Reaches (IsClear men.now a) men.now.last b t) (λ t. at scores.now a t)
        (at out.new a b) }
{
    for a in 0..64u8 {
        let row = a as usize;
        let free = clear_of(men, Square::at(a));
        out[row] = last_man_raised(out[row], scores[row], free, men.last);
    }
}

/// Raises the scores to those where a last man who is a piece of that side goes quietly.
fn raise_last(men: &ShelfMen, side: Side, scores: &Block, out: &mut Block)
    requires { men.now.last.kind ≢ K }
    ensures { (a b : ℕ) → a < 64 → b < 64 →
        IsRaised (at out.old a b) (IsLastStep men.now side a b) (λ t. at scores.now a t) (at out.new a b) }
{
    if is_own_piece(men.last, side) {
        raise_lanes(men, scores, out);
    }
}

/// The scores of the positions after each quiet step of that side, the other side to move. False where the source does
/// not tell.
pub fn quiet_block<S: ShelfScores>(
    source: &S,
    column: Column,
    men: &ShelfMen,
    side: Side,
    keys: &mut [Option<BlockKey>],
    blocks: &mut [Block],
    out: &mut Block,
) -> bool
    requires there { S.has source.now column }
    requires voids { ScoresNoVoids (S.number source.now) (S.worth source.now column) }
    requires men { AreMenOf (S.number source.now) men.now }
    requires one { men.now.first.kind ≢ K }
    requires last { men.now.last.kind ≢ K }
    requires kept { AreKept (S.number source.now) (S.worth source.now) men.now (other_side side) keys.old blocks.old }
    ensures kept { AreKept (S.number source.now) (S.worth source.now) men.now (other_side side) keys.new blocks.new }
    ensures raised { result ≡ true → (a b : ℕ) → a < 64 → b < 64 →
        IsRaised 0 (AreQuietCodes (S.number source.now) men.now side a b) (S.worth source.now column) (at out.new a b) }
{
    if !king_block(source, column, men, side, keys, blocks, out) {
        return false;
    }
    if !is_own_piece(men.first, side) && !is_own_piece(men.last, side) {
        return true;
    }
    let mut scores = nothing();
    if !raise_kept(source, column, men, side.other(), keys, blocks, &mut scores) {
        return false;
    }
    raise_first(men, side, &scores, out);
    raise_last(men, side, &scores, out);
    true
}
