//! Entries of a table, read and written for all squares at once.
ghost use Rattle.std.specs.Prelude.{◌≡◌, ℕ, ◌<◌, ◌≤◌, ◌+◌, ◌*◌, ◌-◌, ◌/◌, ◌%◌, ◌==◌, ◌⊎◌, ◌++◌, slice_index, length};
ghost use Rattle.std.specs.Prelude.{if◌then◌else◌};
ghost use Rattle.egt_board.specs.Images.{side_number};

use crate::score::Entries;
use egt_board::Side;
use std::simd::prelude::*;

/// 64 entries from that place on.
#[inline(always)]
pub(crate) fn loaded(entries: &[u16], from: usize) -> Entries
    requires { from + 64 ≤ length entries.now }
    ensures { (i : ℕ) → i < 64 → slice_index result i ≡ slice_index entries.now (from + i) }
{
    Entries::from_slice(&entries[from..])
}

/// Every second of 128 entries, from the first or the second on.
#[inline(always)]
fn parted(low: Entries, high: Entries, second: bool) -> Entries
    ensures { (s : ℕ) → s < 64 → slice_index result s ≡ slice_index (low ++ high) (2 * s + (if second then 1 else 0)) }
{
    let (even, odd) = low.deinterleave(high);
    if second { odd } else { even }
}

/// Every second of 128 entries: those of one side to move.
#[inline(always)]
fn of_side(low: Entries, high: Entries, side: Side) -> Entries
    ensures { (s : ℕ) → s < 64 → slice_index result s ≡ slice_index (low ++ high) (2 * s + side_number side) }
{
    match side {
        Side::White => parted(low, high, false),
        Side::Black => parted(low, high, true),
    }
}

/// The entries of one side to move, of two for each square.
#[inline(always)]
pub fn load(entries: &[u16], side: Side) -> Entries
    requires { length entries.now ≡ 128 }
    ensures { (s : ℕ) → s < 64 → slice_index result s ≡ slice_index entries.now (2 * s + side_number side) }
{
    of_side(loaded(entries, 0), loaded(entries, 64), side)
}

/// Where each square of the ranks 2 to 7 lies in every second of the entries 0 to 63 and 32 to 95; else 64.
const PAWN_SQUARES: [usize; 64] = [
    64, 64, 64, 64, 64, 64, 64, 64, 0, 1, 2, 3, 4, 5, 6, 7, 8, 9, 10, 11, 12, 13, 14, 15, 16, 17,
    18, 19, 20, 21, 22, 23, 24, 25, 26, 27, 28, 29, 30, 31, 48, 49, 50, 51, 52, 53, 54, 55, 56, 57,
    58, 59, 60, 61, 62, 63, 64, 64, 64, 64, 64, 64, 64, 64,
];

/// The entries of one side to move, of two for each square of the ranks 2 to 7; 0 on the other two ranks.
#[inline(always)]
pub fn load_pawn(entries: &[u16], side: Side) -> Entries
    requires { length entries.now ≡ 96 }
    ensures middle { (s : ℕ) → 8 ≤ s → s < 56 →
        slice_index result s ≡ slice_index entries.now (2 * (s - 8) + side_number side) }
    ensures edge { (s : ℕ) → s < 64 → (s < 8) ⊎ (56 ≤ s) → slice_index result s ≡ 0 }
{
    let every_second = of_side(loaded(entries, 0), loaded(entries, 32), side);
    every_second.shuffle(Entries::splat(0), PAWN_SQUARES)
}

/// Of each square of the ranks 2 to 7 the one a rank down; else 64.
const TARGET_SQUARES: [usize; 64] = [
    64, 64, 64, 64, 64, 64, 64, 64, 0, 1, 2, 3, 4, 5, 6, 7, 8, 9, 10, 11, 12, 13, 14, 15, 16, 17,
    18, 19, 20, 21, 22, 23, 24, 25, 26, 27, 28, 29, 30, 31, 32, 33, 34, 35, 36, 37, 38, 39, 40, 41,
    42, 43, 44, 45, 46, 47, 64, 64, 64, 64, 64, 64, 64, 64,
];

/// The entries of one side to move, without a target or with one, of four for each square of the ranks 2 to 7; 0 on the
/// other two ranks.
#[inline(always)]
pub fn load_target(entries: &[u16], side: Side, target: bool) -> Entries
    requires { length entries.now ≡ 192 }
    ensures middle { (s : ℕ) → 8 ≤ s → s < 56 →
        slice_index result s ≡ slice_index entries.now
        (4 * (s - 8) + 2 * side_number side + (if target then 1 else 0)) }
    ensures edge { (s : ℕ) → s < 64 → (s < 8) ⊎ (56 ≤ s) → slice_index result s ≡ 0 }
{
    let front = parted(loaded(entries, 0), loaded(entries, 64), target);
    let back = parted(loaded(entries, 128), Entries::splat(0), target);
    let every_fourth = of_side(front, back, side);
    every_fourth.shuffle(Entries::splat(0), TARGET_SQUARES)
}

/// The entries of both sides to move in turn, two for each square, those of White first: `load` parts them again.
#[inline(always)]
pub fn woven(white: Entries, black: Entries) -> [u16; 128]
    ensures { (i : ℕ) → i < 128 → slice_index result i ≡ slice_index (if i % 2 == 0 then white else black) (i / 2) }
{
    let (low, high) = white.interleave(black);
    let mut entries = [0; 128];
    low.copy_to_slice(&mut entries);
    high.copy_to_slice(&mut entries[64..]);
    entries
}
