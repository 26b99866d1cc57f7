//! Rows cut down to sets of squares.
ghost use Rattle.std.specs.Prelude.{◌≡◌, ◌≢◌, ℕ, ◌<◌, ◌==◌, ◌/◌, ◌%◌, ◌^◌, slice_index, if◌then◌else◌};
ghost use Rattle.egt_lanes.specs.Prelude.{bit_at, rank_of};

use crate::row::Row;
use egt_board::{Square, SquareSet, of_squares, turned_number};
use std::simd::prelude::*;

/// The rank of each square.
const RANKS: [usize; 64] = [
    0, 0, 0, 0, 0, 0, 0, 0, 1, 1, 1, 1, 1, 1, 1, 1, 2, 2, 2, 2, 2, 2, 2, 2, 3, 3, 3, 3, 3, 3, 3, 3,
    4, 4, 4, 4, 4, 4, 4, 4, 5, 5, 5, 5, 5, 5, 5, 5, 6, 6, 6, 6, 6, 6, 6, 6, 7, 7, 7, 7, 7, 7, 7, 7,
];

/// Of each square the bit of its file.
const FILE_BITS: [u8; 64] = [
    1, 2, 4, 8, 16, 32, 64, 128, 1, 2, 4, 8, 16, 32, 64, 128, 1, 2, 4, 8, 16, 32, 64, 128, 1, 2, 4,
    8, 16, 32, 64, 128, 1, 2, 4, 8, 16, 32, 64, 128, 1, 2, 4, 8, 16, 32, 64, 128, 1, 2, 4, 8, 16,
    32, 64, 128, 1, 2, 4, 8, 16, 32, 64, 128,
];

/// Each square.
const SQUARES: [u8; 64] = of_squares!(turned_number; 0);

/// The set, a byte for each square: that of its rank.
#[inline(always)]
fn rank_bytes(set: SquareSet) -> Row
    ensures { (s : ℕ) → s < 64 → slice_index result s ≡ set.bits / 256 ^ (s / 8) % 256 }
{
    let ranks: Row = u64x8::splat(set.bits).to_le_bytes();
    ranks.swizzle(RANKS)
}

/// The row with 0 at the squares that the set lacks.
#[inline(always)]
pub fn kept(row: Row, set: SquareSet) -> Row
    ensures { (s : ℕ) → s < 64 → slice_index result s ≡ (if bit_at set.bits s == 1 then slice_index row s else 0) }
{
    let place = Row::from_array(FILE_BITS);
    (rank_bytes(set) & place)
        .simd_eq(place)
        .select(row, Row::splat(0))
}

/// The row with 0 at the square.
#[inline(always)]
pub fn without_lane(row: Row, square: Square) -> Row
    ensures { (s : ℕ) → s < 64 → slice_index result s ≡ (if s == square then 0 else slice_index row s) }
{
    let here = Row::from_array(SQUARES).simd_eq(Row::splat(square.number()));
    here.select(Row::splat(0), row)
}

/// The squares at which the row is not 0.
#[inline(always)]
#[tactic(auto, using(crate::proofs::Rows::lanes_bits))]
pub fn lanes_of(row: Row) -> SquareSet
    ensures { (s : ℕ) → s < 64 → bit_at result.bits s ≡ (if slice_index row s == 0 then 0 else 1) }
{
    SquareSet {
        bits: row.simd_ne(Row::splat(0)).to_bitmask(),
    }
}

/// The squares of the rank, from 0 for the first rank.
#[inline(always)]
pub fn rank_squares(rank: u8) -> SquareSet
    requires { rank < 8 }
    ensures { (s : ℕ) → s < 64 → bit_at result.bits s ≡ (if rank_of s == rank then 1 else 0) }
{
    SquareSet {
        bits: 255 << (8 * rank),
    }
}
