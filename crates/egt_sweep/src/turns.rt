//! The turns of a class, by their numbers.
ghost use Rattle.std.specs.Prelude.{◌<◌, ◌≤◌, ℕ};
ghost use Rattle.egt_sweep.specs.FillPrelude.{material_of, IsTurnWith, has_pawns};

use egt_class::Class;
use egt_index::men::has_pawns;

/// The turns of the class that exchange colours where `flips`: those from the first number on and before the second.
pub(crate) fn turns_of(class: Class, flips: bool) -> (u8, u8)
    ensures within { result.1 ≤ 16 }
    ensures all { (t : ℕ) → IsTurnWith (has_pawns (material_of class)) flips t → (result.0 ≤ t) × (t < result.1) }
{
    let first = if flips { 8 } else { 0 };
    let many = if has_pawns(class) { 2 } else { 8 };
    (first, first + many)
}
