//! Scores: a byte for an entry of a table, the greater the better for whoever moves there.
ghost use Rattle.std.specs.Prelude.{◌≡◌, ℕ, ◌<◌, ◌≤◌, ◌+◌, ◌*◌, ◌-◌, ◌%◌, slice_index, length};
ghost use Rattle.egt_lanes.specs.Scores.{byte_score, zeroing_score, due_score, reach_score, reach_due_score};

use crate::row::Row;
use std::simd::prelude::*;

/// An entry for each square.
pub type Entries = Simd<u16, 64>;

/// The low bytes of the entries.
#[inline(always)]
fn low_bytes(entries: Entries) -> Row
    ensures { (s : ℕ) → s < 64 → slice_index result s ≡ slice_index entries s % 256 }
{
    (entries & Entries::splat(255)).cast()
}

/// The scores of entries below 256.
#[inline(always)]
fn byte_scores(entries: Row) -> Row
    ensures { (s : ℕ) → s < 64 → slice_index result s ≡ byte_score (slice_index entries s) }
{
    let one = Row::splat(1);
    let half = entries >> one;
    let win = half.saturating_sub(one);
    let loss = Row::splat(0) - half;
    let decided = (entries & one).simd_eq(one).select(loss, win);
    entries.simd_eq(one).select(Row::splat(128), decided)
}

/// The scores of entries, of which the low byte counts.
#[inline(always)]
pub fn scores(entries: Entries) -> Row
    ensures { (s : ℕ) → s < 64 → slice_index result s ≡ byte_score (slice_index entries s % 256) }
{
    byte_scores(low_bytes(entries))
}

/// What moves that zero the clock are worth, by the mate scores of where they lead.
#[inline(always)]
pub fn zeroed(row: Row) -> Row
    ensures { (s : ℕ) → s < 64 → slice_index result s ≡ zeroing_score (slice_index row s) }
{
    let draw = Row::splat(128);
    let won = row.simd_gt(draw).select(Row::splat(255), Row::splat(0));
    row.simd_eq(draw).select(draw, won)
}

/// What the own scores have to be, by the greatest of the scores after a move.
#[inline(always)]
pub fn due(row: Row) -> Row
    ensures { (s : ℕ) → s < 64 → slice_index result s ≡ due_score (slice_index row s) }
{
    let lost = Row::splat(0) - row;
    let won = Row::splat(254) - row;
    row.simd_ge(Row::splat(128)).select(lost, won)
}

/// The scores of entries below 256 of the column of the nearest mates.
#[inline(always)]
fn byte_reach_scores(entries: Row) -> Row
    ensures { (s : ℕ) → s < 64 → slice_index result s ≡ reach_score (slice_index entries s) }
{
    let one = Row::splat(1);
    // 0 stays 0, where there is no position.
    let loss = Row::splat(0) - entries.saturating_sub(one);
    entries.simd_eq(one).select(Row::splat(128), loss)
}

/// The scores of entries of the column of the nearest mates, of which the low byte counts: 0 is of no position, 1 of a
/// dead one, and 2 + n of one from which n plies of both sides lead to a checkmate. Entries below 128 have scores of
/// their own.
#[inline(always)]
pub fn reach_scores(entries: Entries) -> Row
    ensures { (s : ℕ) → s < 64 → slice_index result s ≡ reach_score (slice_index entries s % 256) }
{
    byte_reach_scores(low_bytes(entries))
}

/// What the own scores in that column have to be, by the greatest of the scores after a move.
#[inline(always)]
pub fn reach_due(row: Row) -> Row
    ensures { (s : ℕ) → s < 64 → slice_index result s ≡ reach_due_score (slice_index row s) }
{
    // A score is one less for each ply, and that of a draw is the least.
    row.saturating_sub(Row::splat(1)).simd_max(Row::splat(128))
}
