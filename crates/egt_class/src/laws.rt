//! Laws of classes and positions. These functions do nothing: a caller calls one to know what it ensures.
ghost use Rattle.std.specs.Prelude.{◌≡◌, ◌<◌, ◌↔◌, ◌⊎◌, ℕ, Bool, not, Option, IsTrue};
ghost use Rattle.egt_class.specs.Prelude.{Contains, option_map, IsStrictlyIncreasing, HasBeside, other_side, Man};
ghost use Rattle.egt_class.specs.Prelude.{White, Black, Kind, Setup, IsAdmissible, SettlesTo, AreImages, men_in};
ghost use Rattle.egt_class.specs.Prelude.{has_equal_sides, name_of, IsOf, AreNonKings, children_of};

use egt_board::counting::{listed_men_are_counted, one_king_is_counted, one_square_changes};
use egt_board::laws::images_keep_men;

/// No two classes have one name.
pub fn names_tell_classes()
    ensures { (c d : ℕ) → c < 36 → d < 36 → name_of c ≡ name_of d → c ≡ d }
{}

/// Both sides have the same men where they have as many of each kind.
pub fn equal_sides_have_the_same_men()
    ensures { (c : ℕ) → c < 36 → IsTrue (has_equal_sides c) ↔
        ((kind : Kind) → men_in c White kind ≡ men_in c Black kind) }
{}

/// Each position is of some class.
pub fn every_position_has_a_class()
    ensures { (p : Setup) → IsAdmissible p → (c : ℕ) × (flipped : Bool) × (c < 36) × IsOf c flipped p }
{
    listed_men_are_counted();
    one_king_is_counted();
}

/// The men beside the kings, in whatever order, are as many of each kind as stand on the board.
pub fn men_beside_are_counted()
    ensures { (p : Setup) (one other : Option (Man × ℕ)) → IsAdmissible p → HasBeside p.men one other →
        AreNonKings p (option_map (λ e. e.0) one) (option_map (λ e. e.0) other) }
{
    one_square_changes();
    one_king_is_counted();
}

/// A position is of one class, with one flip of colours but where both sides have the same men, and there with both.
pub fn a_position_has_one_class()
    ensures class { (p : Setup) (c d : ℕ) (flipped turned : Bool) → c < 36 → d < 36 →
        IsOf c flipped p → IsOf d turned p → c ≡ d }
    ensures flip { (p : Setup) (c : ℕ) (flipped turned : Bool) → c < 36 →
        IsOf c flipped p → IsOf c turned p → (flipped ≡ turned) ⊎ IsTrue (has_equal_sides c) }
    ensures both { (p : Setup) (c : ℕ) (flipped turned : Bool) → c < 36 →
        IsTrue (has_equal_sides c) → IsOf c flipped p → IsOf c turned p }
{}

/// A position's settled form is of its class.
pub fn settling_keeps_the_class()
    ensures { (p q : Setup) (c : ℕ) (flipped : Bool) → SettlesTo p q → IsOf c flipped p ↔ IsOf c flipped q }
{}

/// An image of a position is of its class, with the same flip or, where colours are exchanged, with the other.
pub fn images_keep_the_class()
    ensures { (p q : Setup) (c : ℕ) (flipped : Bool) → IsAdmissible p → AreImages p q → IsOf c flipped p →
        (IsOf c flipped q × (q.side ≡ p.side)) ⊎ (IsOf c (not flipped) q × (q.side ≡ other_side p.side)) }
{
    images_keep_men();
}

/// The children of a class ascend, and have smaller numbers.
pub fn children_have_smaller_numbers()
    ensures smaller { (c d : ℕ) → c < 36 → Contains (children_of c) d → d < c }
    ensures ascending { (c : ℕ) → IsStrictlyIncreasing (children_of c) }
{}
