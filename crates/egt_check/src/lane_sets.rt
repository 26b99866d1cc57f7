//! Rows compared square by square.
ghost use Rattle.std.specs.Prelude.{◌≡◌, ◌<◌, ◌==◌, if◌then◌else◌, ℕ, slice_index};
ghost use Rattle.egt_check.specs.Prelude.{IsMaskOf};

use egt_board::SquareSet;
use egt_lanes::Row;
use egt_lanes::sets::kept;
use std::simd::prelude::*;

/// Of each square what `within` has there where the rows differ, else 0.
#[inline(always)]
pub fn unlike(a: Row, b: Row, within: Row) -> Row
    ensures { (s : ℕ) → s < 64 → slice_index result s ≡
        (if slice_index a s == slice_index b s then 0 else slice_index within s) }
{
    a.simd_ne(b).select(within, Row::splat(0))
}

/// The row with 0 where it has that score.
#[inline(always)]
pub fn without_score(row: Row, score: u8) -> Row
    ensures { (s : ℕ) → s < 64 → slice_index result s ≡ (if slice_index row s == score then 0 else slice_index row s) }
{
    unlike(row, Row::splat(score), row)
}

/// The first row where the mask is not 0, else the second.
#[inline(always)]
pub fn chosen(mask: Row, there: Row, rest: Row) -> Row
    ensures { (s : ℕ) → s < 64 → slice_index result s ≡
        (if slice_index mask s == 0 then slice_index rest s else slice_index there s) }
{
    mask.simd_ne(Row::splat(0)).select(there, rest)
}

/// A row that is not 0 exactly on these squares.
#[inline(always)]
pub fn mask_of(lanes: SquareSet) -> Row
    ensures { IsMaskOf lanes result }
{
    kept(Row::splat(1), lanes)
}
