//! Whether the column of the nearest mates has entries where the mate column has, and their scores are bytes of their
//! own. An entry of it is 0 where there is no position, 1 of a dead one, and 2 + n where n plies of both sides lead to
//! a checkmate.
ghost use Rattle.std.specs.Prelude.{◌≡◌, ℕ, ◌<◌, ◌≤◌, ◌*◌, slice_index, length, true};
ghost use Rattle.egt_lanes.specs.Prelude.{IsVoidOrNear};

use crate::load::loaded;
use crate::score::Entries;
use std::simd::prelude::*;

/// Of each pair 0 only where both entries are 0, or neither is and that of the nearest mates is below 128.
#[inline(always)]
fn far(mate: Entries, reach: Entries) -> Entries
    ensures { (i : ℕ) → i < 64 → slice_index result i ≡ 0 → IsVoidOrNear (slice_index mate i) (slice_index reach i) }
{
    let one = Entries::splat(1);
    reach.saturating_sub(Entries::splat(127)) | (mate.simd_min(one) - reach.simd_min(one))
}

/// Whether all pairs are such.
#[inline(always)]
fn are_near(mate: Entries, reach: Entries) -> bool
    ensures { result ≡ true → (i : ℕ) → i < 64 → IsVoidOrNear (slice_index mate i) (slice_index reach i) }
{
    far(mate, reach).reduce_or() == 0
}

/// Whether in each pair of the first blocks of 64 both entries are 0, or neither is and that of the nearest mates is
/// below 128.
fn blocks_are_near(mate: &[u16], reach: &[u16], blocks: usize) -> bool
    requires mate { 64 * blocks ≤ length mate.now }
    requires reach { 64 * blocks ≤ length reach.now }
    ensures { result ≡ true → (i : ℕ) → i < 64 * blocks →
        IsVoidOrNear (slice_index mate.now i) (slice_index reach.now i) }
{
    for block in 0..blocks {
        let from = 64 * block;
        if !are_near(loaded(mate, from), loaded(reach, from)) {
            return false;
        }
    }
    true
}

/// Whether both entries are 0, or neither is and that of the nearest mates is below 128.
fn is_near(mate: u16, reach: u16) -> bool
    ensures { result ≡ true → IsVoidOrNear mate reach }
{
    reach < 128 && (reach == 0) == (mate == 0)
}

/// Whether the pairs from this place on are such.
fn rest_is_near(mate: &[u16], reach: &[u16], from: usize) -> bool
    requires { length reach.now ≡ length mate.now }
    ensures { result ≡ true → (i : ℕ) → from ≤ i → i < length mate.now →
        IsVoidOrNear (slice_index mate.now i) (slice_index reach.now i) }
{
    for place in from..mate.len() {
        if !is_near(mate[place], reach[place]) {
            return false;
        }
    }
    true
}

/// Whether of all places both columns' entries are 0, or neither is and that of the nearest mates is below 128.
pub fn column_is_near(mate: &[u16], reach: &[u16]) -> bool
    requires { length reach.now ≡ length mate.now }
    ensures { result ≡ true → (i : ℕ) → i < length mate.now →
        IsVoidOrNear (slice_index mate.now i) (slice_index reach.now i) }
{
    let blocks = mate.len() / 64;
    blocks_are_near(mate, reach, blocks) && rest_is_near(mate, reach, 64 * blocks)
}
