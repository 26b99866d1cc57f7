//! Blocks that were read before. Kings who stand near each other step to the same squares, so pairs of kings that are
//! judged one after the other read most blocks once. Whoever has a place for each pair of kings reads a block again
//! only where it was forgotten.
ghost use Rattle.std.specs.Prelude.{◌≡◌, ◌<◌, ℕ, List, [], length, false, true, slice_index_or};
ghost use Rattle.egt_blocks.specs.Prelude.{Side, AreMenOf, IsSomeTurnedCode, ShelfMen, at, IsRaised, Column, stand_on};
ghost use Rattle.egt_blocks.specs.Prelude.{AreKept, IsOfMen, IsPlaced, key_of, wide_place, IsRead, ScoresNoVoids};

use crate::blocks::{Reading, read_block};
use crate::scored::ShelfScores;
use egt_board::{Side, Square, SquareSet};
use egt_index::ShelfMen;
use egt_lanes::Block;
use egt_lanes::block::raise_to_max;
use egt_table::Column;

/// Of which column a block is, and where the kings of its positions stand.
#[derive(Clone, Copy)]
pub struct BlockKey {
    pub column: Column,
    pub white: Square,
    pub black: Square,
}

/// How many places there are for the blocks that neighbours read: squares beside one square are within 19 numbers that
/// follow one another, and each has a place in either column that is judged at the same time.
pub const NEAR_PLACES: usize = 38;

/// No block's key: nothing is kept in any place before it is read.
pub fn no_keys() -> [Option<BlockKey>; NEAR_PLACES]
    ensures { (c : ℕ) (worth : Column → ℕ → ℕ) (men : ShelfMen) (side : Side) (blocks : List (List (List ℕ))) →
        length blocks ≡ 38 → AreKept c worth men side result blocks }
{
    [None; NEAR_PLACES]
}

/// Whether the key is that of the column's block of these men.
fn is_of(key: Option<BlockKey>, column: Column, men: &ShelfMen) -> bool
    ensures { result ≡ true → IsOfMen key column men.now }
{
    match key {
        Some(key) => key.column == column && key.white == men.white && key.black == men.black,
        None => false,
    }
}

/// How many places there are for a white king on the first five files of a rank: two for each square of either.
pub const RANK_PLACES: usize = 640;

/// The place among so many of the block of a pair of kings, the white one on the first five files; one who stands
/// farther away has the places of the nearest of these squares. Pairs whose numbers are far apart may have the same.
pub fn wide_place(column: Column, white: Square, black: Square, places: usize) -> usize
    requires { 0 < places }
    ensures is { result ≡ wide_place column white black places }
    ensures within { result < places }
    ensures on_board { (white < 64) × (black < 64) }
{
    let second = match column {
        Column::Zeroing => 1,
        Column::Mate | Column::Reach => 0,
    };
    let rank = usize::from(white.number() / 8);
    let file = usize::from(white.number() % 8).min(4);
    let kings = 64 * (5 * rank + file) + usize::from(black.number());
    (2 * kings + second) % places
}

/// The scores of the positions with these men where that side is to move. False where the source does not tell.
#[tactic(auto, using(crate::proofs::BlockRaising::all_squares))]
fn read_all<S: ShelfScores>(
    source: &S,
    column: Column,
    men: &ShelfMen,
    side: Side,
    out: &mut Block,
) -> bool
    requires there { S.has source.now column }
    requires voids { ScoresNoVoids (S.number source.now) (S.worth source.now column) }
    requires men { AreMenOf (S.number source.now) men.now }
    ensures { result ≡ true → (a b : ℕ) → a < 64 → b < 64 →
        IsRead (S.number source.now) (S.worth source.now column) false (stand_on men.now a b) side (at out.new a b) }
{
    let reading = Reading {
        column,
        flips: false,
        targeted: false,
        side,
    };
    read_block(source, &reading, men, SquareSet::ALL, out)
}

/// Reads the block of these men into the place, where it is not there. False where the source does not tell.
fn keep<S: ShelfScores>(
    source: &S,
    column: Column,
    men: &ShelfMen,
    side: Side,
    place: usize,
    keys: &mut [Option<BlockKey>],
    blocks: &mut [Block],
) -> bool
    requires there { S.has source.now column }
    requires voids { ScoresNoVoids (S.number source.now) (S.worth source.now column) }
    requires men { AreMenOf (S.number source.now) men.now }
    requires place { place < length keys.old }
    requires placed { IsPlaced (length keys.old) (key_of column men.now) place }
    requires kept { AreKept (S.number source.now) (S.worth source.now) men.now side keys.old blocks.old }
    ensures kept { AreKept (S.number source.now) (S.worth source.now) men.now side keys.new blocks.new }
    ensures read { result ≡ true → (a b : ℕ) → a < 64 → b < 64 →
        IsRead (S.number source.now) (S.worth source.now column) false (stand_on men.now a b) side
        (at (slice_index_or blocks.new place []) a b) }
{
    if is_of(keys[place], column, men) {
        return true;
    }
    keys[place] = None;
    if !read_all(source, column, men, side, &mut blocks[place]) {
        return false;
    }
    keys[place] = Some(BlockKey {
        column,
        white: men.white,
        black: men.black,
    });
    true
}

/// Raises the block to the scores of the positions with these men where that side is to move. False where the source
/// does not tell.
pub fn raise_kept<S: ShelfScores>(
    source: &S,
    column: Column,
    men: &ShelfMen,
    side: Side,
    keys: &mut [Option<BlockKey>],
    blocks: &mut [Block],
    out: &mut Block,
) -> bool
    requires there { S.has source.now column }
    requires voids { ScoresNoVoids (S.number source.now) (S.worth source.now column) }
    requires men { AreMenOf (S.number source.now) men.now }
    requires kept { AreKept (S.number source.now) (S.worth source.now) men.now side keys.old blocks.old }
    ensures kept { AreKept (S.number source.now) (S.worth source.now) men.now side keys.new blocks.new }
    ensures raised { result ≡ true → (a b : ℕ) → a < 64 → b < 64 → IsRaised (at out.old a b)
        (λ code. IsSomeTurnedCode (S.number source.now) code false (stand_on men.now a b) side)
        (S.worth source.now column) (at out.new a b) }
{
    let place = wide_place(column, men.white, men.black, keys.len());
    if !keep(source, column, men, side, place, keys, blocks) {
        return false;
    }
    raise_to_max(out, &blocks[place]);
    true
}
