//! Laws of single moves. These functions do nothing: a caller calls one to know what it ensures.
ghost use Rattle.std.specs.Prelude.{◌≢◌, ◌<◌, ℕ, Bool, false};
ghost use Rattle.egt_steps.specs.Prelude.{other_side, Setup, IsAdmissible, K, Side, IsMoved, HasStand, ShelfMen, Stand};
ghost use Rattle.egt_steps.specs.Prelude.{Zeroes, Leads, Move, IsQuietAlone, NoneZeroes, stand_alone, IsQuietStand};
ghost use Rattle.egt_steps.specs.Prelude.{stand_on, IsClassOf, IsPlainCapture, IsTaken, Left, stand_left};

use crate::class_moves::moves_lead_into_the_class_or_a_child;
use crate::code_laws::stands_follow_moves;
use crate::facts::facts;
use egt_class::laws::men_beside_are_counted;

/// A move that does not zero takes one man to a free square, and changes nothing else on the board: it keeps the class
/// and sets no target.
pub fn a_quiet_move_moves_one_man()
    ensures { (c : ℕ) (p q : Setup) (m : Move) → IsAdmissible p → Leads p m q → ¬ Zeroes p m →
        IsMoved c p m.from m.to q }
{
    facts();
    moves_lead_into_the_class_or_a_child();
}

/// The moves that do not zero lead to the men after quiet steps, and to all of them that are positions.
pub fn quiet_moves_are_quiet_steps()
    ensures goes { (c : ℕ) (men : ShelfMen) (side : Side) (targeted : Bool) (a b : ℕ) (p q : Setup) (m : Move) →
        c < 36 → HasStand c false (stand_on men a b) side targeted p →
        Leads p m q → ¬ Zeroes p m → (stand : Stand) × IsQuietStand men side a b stand ×
        HasStand c false stand (other_side side) false q }
    ensures comes { (c : ℕ) (men : ShelfMen) (side : Side) (targeted : Bool) (a b : ℕ) (p q : Setup) (stand : Stand) →
        c < 36 → HasStand c false (stand_on men a b) side targeted p →
        IsQuietStand men side a b stand → HasStand c false stand (other_side side) false q →
        (m : Move) × Leads p m q × ¬ Zeroes p m }
{
    facts();
    moves_lead_into_the_class_or_a_child();
    stands_follow_moves();
    a_quiet_move_moves_one_man();
}

/// With one man beside the kings the moves that do not zero lead to the men after quiet steps, and to all of them that
/// are positions; and no move zeroes where he is no pawn of the side to move, nor attacked by its king.
pub fn quiet_moves_of_three_men_are_quiet_steps()
    ensures goes { (c : ℕ) (men : ShelfMen) (side : Side) (targeted : Bool) (s : ℕ) (p q : Setup) (m : Move) → c < 36 →
        HasStand c false (stand_alone men s) side targeted p →
        Leads p m q → ¬ Zeroes p m → (stand : Stand) × IsQuietAlone men side s stand ×
        HasStand c false stand (other_side side) false q }
    ensures comes { (c : ℕ) (men : ShelfMen) (side : Side) (targeted : Bool) (s : ℕ) (p q : Setup) (stand : Stand) →
        c < 36 → HasStand c false (stand_alone men s) side targeted p →
        IsQuietAlone men side s stand → HasStand c false stand (other_side side) false q →
        (m : Move) × Leads p m q × ¬ Zeroes p m }
    ensures quiet { (c : ℕ) (men : ShelfMen) (side : Side) (targeted : Bool) (s : ℕ) (p q : Setup) (m : Move) → c < 36 →
        HasStand c false (stand_alone men s) side targeted p →
        NoneZeroes men side s → Leads p m q → ¬ Zeroes p m }
{
    facts();
    moves_lead_into_the_class_or_a_child();
    stands_follow_moves();
    a_quiet_move_moves_one_man();
}

/// The captures that promote no pawn and are not in passing lead to the three men who are left, and to all positions of
/// them.
pub fn captures_lead_to_three_men()
    ensures goes { (c : ℕ) (men : ShelfMen) (side : Side) (targeted : Bool) (a b : ℕ) (p q : Setup) (m : Move) →
        c < 36 → men.first.kind ≢ K → men.last.kind ≢ K →
        HasStand c false (stand_on men a b) side targeted p → Leads p m q → IsPlainCapture p m →
        (left : Left) × IsTaken men side a b left ×
        ((d : ℕ) (flips : Bool) → IsClassOf d flips left.man →
        HasStand d flips (stand_left flips left) (other_side side) false q) }
    ensures comes { (c : ℕ) (men : ShelfMen) (side : Side) (targeted : Bool) (a b : ℕ) (p : Setup) → c < 36 →
        men.first.kind ≢ K → men.last.kind ≢ K →
        HasStand c false (stand_on men a b) side targeted p → (left : Left) → IsTaken men side a b left →
        (d : ℕ) (flips : Bool) → IsClassOf d flips left.man →
        (q : Setup) → HasStand d flips (stand_left flips left) (other_side side) false q →
        (m : Move) × Leads p m q × IsPlainCapture p m }
{
    facts();
    stands_follow_moves();
    men_beside_are_counted();
}
