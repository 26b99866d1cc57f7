//! Blocks: a row for each square of the first man.
ghost use Rattle.std.specs.Prelude.{◌≡◌, ℕ, ◌<◌, ◌+◌, ◌*◌, ◌/◌, ◌%◌, ◌==◌, max, slice_index, if◌then◌else◌, true};
ghost use Rattle.egt_lanes.specs.Blocks.{at};

use crate::row::{Row, differ, greater};
use std::simd::prelude::*;

/// A row for each square: row `a` is that of square `a`.
pub type Block = [Row; 64];

/// The lanes of two rows in turn: those of the first halves, and those of the second.
#[inline(always)]
fn woven(above: Row, below: Row) -> (Row, Row)
    ensures low { (b : ℕ) → b < 64 → slice_index result.0 b ≡ slice_index (if b % 2 == 0 then above else below)
        (b / 2) }
    ensures high { (b : ℕ) → b < 64 → slice_index result.1 b ≡ slice_index (if b % 2 == 0 then above else below)
        (32 + b / 2) }
{
    above.interleave(below)
}

/// One of six rounds that exchange rows and lanes: of the twelve bits of a row and a lane, the first becomes the last.
fn interleaved(out: &mut Block, from: &Block)
    ensures { (a b : ℕ) → a < 64 → b < 64 → at out.new a b ≡ at from.now (a / 2 + 32 * (b % 2)) (32 * (a % 2) + b / 2) }
{
    for i in 0..32 {
        let (low, high) = woven(from[i], from[i + 32]);
        out[2 * i] = low;
        out[2 * i + 1] = high;
    }
}

/// Whether all numbers of the block are 0.
fn is_blank(block: &Block) -> bool
    ensures { result ≡ true → (a b : ℕ) → a < 64 → b < 64 → at block.now a b ≡ 0 }
{
    for i in 0..64 {
        if differ(block[i], Row::splat(0), block[i]) {
            return false;
        }
    }
    true
}

/// Each number of `out` the greater of it and of that with row and lane exchanged in `from`.
pub fn raise_transposed(out: &mut Block, from: &Block)
    ensures { (a b : ℕ) → a < 64 → b < 64 → at out.new a b ≡ max (at out.old a b) (at from.now b a) }
{
    if is_blank(from) {
        return;
    }
    let mut there = [Row::splat(0); 64];
    let mut here = [Row::splat(0); 64];
    interleaved(&mut there, from);
    interleaved(&mut here, &there);
    interleaved(&mut there, &here);
    interleaved(&mut here, &there);
    interleaved(&mut there, &here);
    interleaved(&mut here, &there);
    raise_to_max(out, &here);
}

/// Each number of `out` the greater of it and of that in `by`.
pub fn raise_to_max(out: &mut Block, by: &Block)
    ensures { (a b : ℕ) → a < 64 → b < 64 → at out.new a b ≡ max (at out.old a b) (at by.now a b) }
{
    for i in 0..64 {
        out[i] = greater(out[i], by[i]);
    }
}
