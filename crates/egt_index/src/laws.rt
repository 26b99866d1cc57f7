//! Laws of codes and indexes. These functions do nothing: a caller calls one to know what it ensures.
ghost use Rattle.std.specs.Prelude.{◌≡◌, ◌↔◌, ◌⊎◌, ℕ, ◌*◌, ◌<◌, ◌≤◌, Bool, false, true};
ghost use Rattle.egt_index.specs.Prelude.{Man, Side, HasNoPawn, MayStand, IsSettled, Setup, IsAdmissible, material_of};
ghost use Rattle.egt_index.specs.Prelude.{IsOf, Spells, AreImages, IsIndex, IsVoid, SettleAlike, IsShelf, ShelfMen};
ghost use Rattle.egt_index.specs.Prelude.{has_pawns, has_target, size_of, TellsMen, HasStand, IsFilled, list_of};
ghost use Rattle.egt_index.specs.Prelude.{IsSomeTurnedCodeWith, IsListed, AreOnBoard, Stand};
ghost use Rattle.egt_index.specs.Numbers.{code_of, half_of, number_of, places};

use crate::facts::facts;

/// A code of a class spells one position.
pub fn codes_spell_one_position()
    ensures { (c code : ℕ) (p q : Setup) → Spells c code p → Spells c code q → p ≡ q }
{}

/// What a code of a class spells is of the class, in its colours.
pub fn spelled_positions_are_of_the_class()
    ensures { (c code : ℕ) (p : Setup) → Spells c code p → IsOf c false p }
{}

/// Each position of a class has one index, which is below the class's size.
pub fn every_position_has_one_index()
    ensures some { (p : Setup) (c : ℕ) (flipped : Bool) → c < 36 → IsAdmissible p → IsOf c flipped p →
        (i : ℕ) × IsIndex c p i }
    ensures one { (p : Setup) (c i j : ℕ) → IsAdmissible p → IsIndex c p i → IsIndex c p j → i ≡ j }
    ensures below { (p : Setup) (c i : ℕ) → IsIndex c p i → i < size_of c }
{
    facts();
}

/// Two positions of a class have one index exactly where they settle to images of one another.
pub fn one_index_for_all_images()
    ensures { (p q : Setup) (c i j : ℕ) → IsAdmissible p → IsAdmissible q → IsIndex c p i → IsIndex c q j →
        (i ≡ j) ↔ SettleAlike p q }
{
    facts();
}

/// The position that an index spells has that index.
pub fn an_index_spells_a_position_of_it()
    ensures { (p q : Setup) (c i : ℕ) → IsAdmissible p → IsIndex c p i → Spells c i q → IsIndex c q i }
{
    facts();
}

/// A code is the index of the position that it spells, or no position's.
pub fn a_code_is_an_index_or_void()
    ensures { (c code : ℕ) → c < 36 → ((p : Setup) × Spells c code p × IsIndex c p code) ⊎ IsVoid c code }
{
    facts();
}

/// No pawn stands in a position of a class without pawns.
pub fn a_class_without_pawns_has_none()
    ensures { (c : ℕ) (flipped : Bool) (p : Setup) → IsAdmissible p → IsOf c flipped p →
        has_pawns (material_of c) ≡ false → HasNoPawn p.men }
{
    facts();
}

/// A settled position that a code spells has the men that the code tells.
pub fn codes_tell_their_men()
    ensures { (targeted : Bool) (c code : ℕ) (p : Setup) (stand : Stand) (side : Side) → c < 36 → Spells c code p →
        IsSettled p → TellsMen targeted c code stand side → HasStand c false stand side targeted p }
{
    facts();
}

/// Each code of a class has a number, which stands for it alone; the positions of the upper half of all shelves have a
/// target, and no others; and what an index spells is settled, so that its number stands for that.
pub fn numbers_stand_for_codes()
    ensures code { (c code : ℕ) → c < 36 → code < size_of c → code_of c (number_of c code) ≡ code }
    ensures within { (c code : ℕ) → c < 36 → code < size_of c → number_of c code < size_of c }
    ensures below { (c n : ℕ) → c < 36 → code_of c n < size_of c → n < size_of c }
    ensures coded { (c n : ℕ) → c < 36 → n < size_of c → code_of c n < size_of c }
    ensures number { (c n : ℕ) → c < 36 → n < size_of c → number_of c (code_of c n) ≡ n }
    ensures halves { (c shelf : ℕ) (men : ShelfMen) (is : IsShelf c shelf men) → c < 36 →
        has_target (material_of c) ≡ true → (is.targeted ≡ true) ↔ (half_of c ≤ shelf * (2 * places c)) }
    ensures indexes_are_settled { (c i : ℕ) (p q : Setup) → IsAdmissible p → IsIndex c p i → Spells c i q →
        IsSettled q }
{
    facts();
}

/// One code tells men on their squares, pawns on neither the first rank nor the last. The index of a position with
/// these men is a code that tells them where a turn takes them, and a target where the position has one; and what any
/// such code spells is an image of each position with these men. There is one if no target was passed, or what the code
/// spells is settled.
pub fn codes_tell_turned_men()
    ensures one { (targeted : Bool) (c x y : ℕ) (stand : Stand) (side : Side) → TellsMen targeted c x stand side →
        TellsMen targeted c y stand side → x ≡ y }
    ensures pawns { (targeted : Bool) (c code : ℕ) (stand : Stand) (side : Side) (man : Man) (s : ℕ) →
        TellsMen targeted c code stand side → IsListed (list_of stand) man s → MayStand man s }
    ensures index { (targeted : Bool) (c i : ℕ) (flips : Bool) (stand : Stand) (side : Side) (q : Setup) → c < 36 →
        IsFilled stand → HasStand c flips stand side targeted q → IsIndex c q i →
        IsSomeTurnedCodeWith targeted c i flips stand side }
    ensures images { (targeted : Bool) (c code : ℕ) (flips : Bool) (stand : Stand) (side : Side) (q r : Setup) →
        c < 36 → HasStand c flips stand side targeted q →
        IsSomeTurnedCodeWith targeted c code flips stand side → Spells c code r → AreImages q r }
    ensures there { (targeted : Bool) (c code : ℕ) (flips : Bool) (stand : Stand) (side : Side) (r : Setup) → c < 36 →
        AreOnBoard stand → IsSomeTurnedCodeWith targeted c code flips stand side →
        Spells c code r → (targeted ≡ true → IsSettled r) →
        (q : Setup) × HasStand c flips stand side targeted q × AreImages q r }
{
    facts();
}
