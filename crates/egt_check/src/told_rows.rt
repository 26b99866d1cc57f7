//! The entries that rows of scores tell.
ghost use Rattle.std.specs.Prelude.{◌≡◌, ◌<◌, ℕ, slice_index};
ghost use Rattle.egt_check.specs.Prelude.{near_told, told, value_told};

use egt_lanes::Row;
use egt_lanes::score::Entries;
use egt_table::Column;
use std::simd::prelude::*;

/// The entries of the mate column or the zeroing column that have the scores.
#[inline(always)]
fn value_entries(row: Row) -> Entries
    ensures { (s : ℕ) → s < 64 → slice_index result s ≡ value_told (slice_index row s) }
{
    let wide: Entries = row.cast();
    let twice = wide + wide;
    let draw = Entries::splat(128);
    let decided = wide
        .simd_lt(draw)
        .select(Entries::splat(2) + twice, Entries::splat(513) - twice);
    let some = wide.simd_eq(draw).select(Entries::splat(1), decided);
    let none = Entries::splat(0);
    wide.simd_eq(none).select(none, some)
}

/// The entries of the column of the nearest mates that have the scores.
#[inline(always)]
fn near_entries(row: Row) -> Entries
    ensures { (s : ℕ) → s < 64 → slice_index result s ≡ near_told (slice_index row s) }
{
    let wide: Entries = row.cast();
    let loss = Entries::splat(257) - wide;
    let some = wide
        .simd_eq(Entries::splat(128))
        .select(Entries::splat(1), loss);
    let none = Entries::splat(0);
    wide.simd_eq(none).select(none, some)
}

/// The entries of the column that have the scores.
#[inline(always)]
pub fn told_row(column: Column, row: Row) -> Entries
    ensures { (s : ℕ) → s < 64 → slice_index result s ≡ told column (slice_index row s) }
{
    match column {
        Column::Mate | Column::Zeroing => value_entries(row),
        Column::Reach => near_entries(row),
    }
}
