//! The pairs of squares that the kings stand on, of a class with two men beside them.
ghost use Rattle.std.specs.Prelude.{◌*◌, ◌+◌, ◌<◌, ◌≤◌, ℕ, IfSome};
ghost use Rattle.egt_check.specs.Prelude.{Side, size_of, ShelfMen, TableValue, Tables, AreJudgedPairs, ArePairs};
ghost use Rattle.egt_check.specs.Prelude.{IsJudgedPair, KeepsPart, Pairs, Part};

use egt_blocks::digits::digits_of;
use egt_class::Class;
use egt_index::{ShelfMen, has_target, last_digits, size};

/// How the shelves of a class go by pairs: those of a pair are `step` from its number times `step` on, and as many
/// `half` further on, whose positions have a target.
#[derive(Clone, Copy)]
pub struct Pairs {
    /// How many squares the white king has; with each the black king has 64.
    pub kings: u32,
    /// How many digits the first man has.
    pub step: u32,
    /// How many shelves have no target, and as many have one; 0 in a class without targets.
    pub half: u32,
    /// How many codes a pair has: they follow one another.
    pub codes: u32,
}

/// How many pairs there are at most.
pub const MOST_PAIRS: usize = 2048;

/// The pairs of a class with these men beside its kings. `None` where its shelves do not go by them.
pub fn pairs_of(class: Class, men: &ShelfMen) -> Option<Pairs>
    ensures { IfSome result (ArePairs class men.now) }
{
    let step = u32::from(digits_of(men.first));
    let wide = last_digits(class);
    if wide != u32::from(digits_of(men.last)) {
        return None;
    }
    let ends = if has_target(class) { 4 } else { 2 };
    let codes = ends * wide * step;
    let kings = size(class) / (64 * codes);
    if kings > 32 || 64 * kings * codes != size(class) {
        return None;
    }
    let half = if has_target(class) {
        64 * kings * step
    } else {
        0
    };
    Some(Pairs {
        kings,
        step,
        half,
        codes,
    })
}

/// Where the entries with the kings on a pair of squares keep the rules, with either side to move, those at its codes
/// do; and where all pairs' do, those at all codes. This function does nothing: a caller calls it to know what it
/// ensures.
pub fn judged_pairs_hold_all_codes()
    ensures pair { (part : Part) (tables : Tables) (t : TableValue) (men : ShelfMen) (pairs : Pairs) (pair i : ℕ) →
        ArePairs t.class men pairs →
        ((side : Side) → IsJudgedPair part tables t men pairs side pair) → i < size_of t.class →
        pair * pairs.codes ≤ i → i < (pair + 1) * pairs.codes → KeepsPart part tables t i }
    ensures all { (part : Part) (tables : Tables) (t : TableValue) (men : ShelfMen) (pairs : Pairs) →
        ArePairs t.class men pairs →
        ((side : Side) → AreJudgedPairs part tables t men pairs side) → (i : ℕ) → i < size_of t.class →
        KeepsPart part tables t i }
{}
