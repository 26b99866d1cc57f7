//! Whether the entries of both columns show the same results, and have bytes of their own.
ghost use Rattle.std.specs.Prelude.{◌≡◌, ℕ, ◌<◌, ◌≤◌, ◌*◌, slice_index, length, true};
ghost use Rattle.egt_lanes.specs.Prelude.{AreVoidOrAlike};

use crate::load::loaded;
use crate::score::Entries;
use std::simd::prelude::*;

/// Of each pair 0 only where both entries are 0, or show the same result and have bytes of their own.
#[inline(always)]
fn unlike(mate: Entries, zeroing: Entries) -> Entries
    ensures { (i : ℕ) → i < 64 → slice_index result i ≡ 0 →
        AreVoidOrAlike (slice_index mate i) (slice_index zeroing i) }
{
    let one = Entries::splat(1);
    let low = mate.simd_min(zeroing);
    let high = mate.simd_max(zeroing);
    // Beside 0 or 1 no other entry is right, and 2 is none.
    let limit = low
        .simd_lt(Entries::splat(3))
        .select(one, Entries::splat(253));
    high.saturating_sub(limit) | ((high - low) & one)
}

/// Whether all pairs are such.
#[inline(always)]
fn are_alike(mate: Entries, zeroing: Entries) -> bool
    ensures { result ≡ true → (i : ℕ) → i < 64 → AreVoidOrAlike (slice_index mate i) (slice_index zeroing i) }
{
    unlike(mate, zeroing).reduce_or() == 0
}

/// Whether in each pair of the first blocks of 64 both entries are 0, or show the same result and have bytes of their
/// own.
fn blocks_are_alike(mate: &[u16], zeroing: &[u16], blocks: usize) -> bool
    requires mate { 64 * blocks ≤ length mate.now }
    requires zeroing { 64 * blocks ≤ length zeroing.now }
    ensures { result ≡ true → (i : ℕ) → i < 64 * blocks →
        AreVoidOrAlike (slice_index mate.now i) (slice_index zeroing.now i) }
{
    for block in 0..blocks {
        let from = 64 * block;
        if !are_alike(loaded(mate, from), loaded(zeroing, from)) {
            return false;
        }
    }
    true
}

/// Whether both entries are 0, or show the same result and have bytes of their own.
fn is_alike(mate: u16, zeroing: u16) -> bool
    ensures { result ≡ true → AreVoidOrAlike mate zeroing }
{
    if mate < 3 {
        mate == zeroing && mate < 2
    } else {
        2 < zeroing && mate < 254 && zeroing < 254 && mate % 2 == zeroing % 2
    }
}

/// Whether the pairs from this place on are such.
fn rest_is_alike(mate: &[u16], zeroing: &[u16], from: usize) -> bool
    requires { length zeroing.now ≡ length mate.now }
    ensures { result ≡ true → (i : ℕ) → from ≤ i → i < length mate.now →
        AreVoidOrAlike (slice_index mate.now i) (slice_index zeroing.now i) }
{
    for place in from..mate.len() {
        if !is_alike(mate[place], zeroing[place]) {
            return false;
        }
    }
    true
}

/// Whether of all places both columns' entries are 0, or show the same result and have bytes of their own.
pub fn columns_are_alike(mate: &[u16], zeroing: &[u16]) -> bool
    requires { length zeroing.now ≡ length mate.now }
    ensures { result ≡ true → (i : ℕ) → i < length mate.now →
        AreVoidOrAlike (slice_index mate.now i) (slice_index zeroing.now i) }
{
    let blocks = mate.len() / 64;
    blocks_are_alike(mate, zeroing, blocks) && rest_is_alike(mate, zeroing, 64 * blocks)
}
