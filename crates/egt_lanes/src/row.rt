//! Rows: a number for each square.
ghost use Rattle.std.specs.Prelude.{◌≡◌, ◌≢◌, ℕ, ◌<◌, max, slice_index, false, true};

use std::simd::prelude::*;

/// A number for each square: lane `s` is that of square `s`.
pub type Row = Simd<u8, 64>;

/// Of each square the greater number.
#[inline(always)]
pub fn greater(a: Row, b: Row) -> Row
    ensures { (s : ℕ) → s < 64 → slice_index result s ≡ max (slice_index a s) (slice_index b s) }
{
    a.simd_max(b)
}

/// Whether the rows differ at a square where `within` is not 0.
#[inline(always)]
pub fn differ(a: Row, b: Row, within: Row) -> bool
    ensures alike { result ≡ false → (s : ℕ) → s < 64 → slice_index within s ≢ 0 → slice_index a s ≡ slice_index b s }
    ensures apart { result ≡ true → (s : ℕ) × (s < 64) × (slice_index within s ≢ 0) ×
        (slice_index a s ≢ slice_index b s) }
{
    let nothing = Row::splat(0);
    let wrong = a.simd_ne(b).select(within, nothing);
    wrong.simd_ne(nothing).any()
}
