//! Sets of squares, as 64 bits.
ghost use Rattle.std.specs.Prelude.{◌≡◌, ◌≢◌, ℕ, ◌<◌, ◌≤◌, ◌+◌, ◌-◌, ◌^◌, ◌↔◌, IsTrue, IfSome, IfNone, max, min};
ghost use Rattle.std.specs.Prelude.{if◌then◌else◌};
ghost use Rattle.std.specs.Int.{bit_at};

use crate::square::Square;

/// A set of squares: bit `s` of `bits` is 1 where the set has the square of number `s`.
#[derive(Clone, Copy, Debug, Default, PartialEq, Eq)]
pub struct SquareSet {
    pub bits: u64,
}

impl SquareSet {
    ghost use Rattle.egt_board.specs.SquareSet.{Has, size_of};

    /// The set without a square.
    pub const EMPTY: SquareSet = SquareSet { bits: 0 };

    /// The set of all squares.
    pub const ALL: SquareSet = SquareSet { bits: u64::MAX };

    /// Whether the set has no square.
    pub fn is_empty(self) -> bool
        ensures { IsTrue result ↔ ((t : ℕ) → bit_at self.bits t ≡ 0) }
    {
        self.bits == 0
    }

    /// Whether the set has the square.
    pub fn contains(self, square: Square) -> bool
        ensures { IsTrue result ↔ Has self square }
    {
        (self.bits >> square.number()) & 1 == 1
    }

    /// The set and the square.
    pub fn with(self, square: Square) -> SquareSet
        ensures same { Has result square }
        ensures others { (t : ℕ) → t ≢ square → bit_at result.bits t ≡ bit_at self.bits t }
    {
        SquareSet {
            bits: self.bits | 1 << square.number(),
        }
    }

    /// The set without the square.
    pub fn without(self, square: Square) -> SquareSet
        ensures same { bit_at result.bits square ≡ 0 }
        ensures others { (t : ℕ) → t ≢ square → bit_at result.bits t ≡ bit_at self.bits t }
        ensures fewer { Has self square → result.bits < self.bits }
    {
        SquareSet {
            bits: self.bits & !(1 << square.number()),
        }
    }

    /// The set, with the square in it or not.
    pub fn set(self, square: Square, here: bool) -> SquareSet
        ensures same { bit_at result.bits square ≡ (if here then 1 else 0) }
        ensures others { (t : ℕ) → t ≢ square → bit_at result.bits t ≡ bit_at self.bits t }
    {
        if here {
            self.with(square)
        } else {
            self.without(square)
        }
    }

    /// The squares of either set.
    pub fn union(self, other: SquareSet) -> SquareSet
        ensures squares { (t : ℕ) → bit_at result.bits t ≡ max (bit_at self.bits t) (bit_at other.bits t) }
        ensures few { size_of result ≤ size_of self + size_of other }
    {
        SquareSet {
            bits: self.bits | other.bits,
        }
    }

    /// The squares of both sets.
    pub fn intersection(self, other: SquareSet) -> SquareSet
        ensures squares { (t : ℕ) → bit_at result.bits t ≡ min (bit_at self.bits t) (bit_at other.bits t) }
        ensures few { size_of result ≤ size_of self }
    {
        SquareSet {
            bits: self.bits & other.bits,
        }
    }

    /// The squares that the other set lacks.
    pub fn difference(self, other: SquareSet) -> SquareSet
        ensures squares { (t : ℕ) → bit_at result.bits t ≡ min (bit_at self.bits t) (1 - bit_at other.bits t) }
        ensures few { size_of result ≤ size_of self }
    {
        SquareSet {
            bits: self.bits & !other.bits,
        }
    }

    /// Takes out the square of the least number; `None` where the set is empty.
    pub fn pop_first(&mut self) -> Option<Square>
        ensures had { IfSome result (λ s. Has self.old s) }
        ensures gone { IfSome result (λ s. bit_at self.new.bits s ≡ 0) }
        ensures least { IfSome result (λ s. (t : ℕ) → t < s → bit_at self.old.bits t ≡ 0) }
        ensures others { IfSome result (λ s. (t : ℕ) → t ≢ s → bit_at self.new.bits t ≡ bit_at self.old.bits t) }
        ensures fewer { IfSome result (λ _. self.new.bits < self.old.bits) }
        ensures size { IfSome result (λ _. size_of self.new + 1 ≡ size_of self.old) }
        ensures empty { IfNone result ((t : ℕ) → bit_at self.old.bits t ≡ 0) }
        ensures stays { IfNone result (self.new ≡ self.old) }
    {
        let first = Square::new(self.bits.trailing_zeros() as u8)?;
        *self = self.without(first);
        Some(first)
    }
}
