//! Where the moves of pawns lead, by the men on their squares. These functions do nothing: a caller calls one to know
//! what it ensures.
ghost use Rattle.std.specs.Prelude.{◌≡◌, ◌≢◌, ◌<◌, ◌↔◌, ℕ, Bool, true, false, IsTrue, Option, Some, None};
ghost use Rattle.egt_steps.specs.Prelude.{other_side, ahead, IsOccupiedBy, SettlesTo, Setup, Kind, P, K, Side};
ghost use Rattle.egt_steps.specs.Prelude.{ShelfMen, Stand, Captures, Leads, arriving, Move, IsOfFourKinds, HasStand};
ghost use Rattle.egt_steps.specs.Prelude.{IsPassingCapture, IsPassingFrom, LeavesTarget, IsAdvance, IsAdvanceFrom};
ghost use Rattle.egt_steps.specs.Prelude.{IsClassAfter, IsPromotingCapture, IsPromotingCaptureFrom, officer_of};
ghost use Rattle.egt_steps.specs.Prelude.{stand_after, stand_in, IsClassOf, left_of, stand_left};

use crate::code_laws::stands_follow_moves;
use crate::facts::facts;
use egt_class::laws::men_beside_are_counted;

/// The advances of the last man beside the kings, a pawn, lead to the men after them, and to all positions of them. One
/// by two squares leaves a target where the first man is a pawn who stands ready to take in passing.
pub fn advances_lead_to_the_men_after()
    ensures goes { (c : ℕ) (men : ShelfMen) (first : Bool) (side : Side) (targeted : Bool) (a b : ℕ) (p q : Setup)
        (m : Move) → c < 36 → men.first.kind ≢ K → men.last.kind ≡ P →
        HasStand c false (stand_in first men a b) side targeted p → Leads p m q → m.from ≡ b → ¬ Captures p m →
        IsAdvance men side a b m.promo m.to ×
        ((d : ℕ) (before flips : Bool) → IsClassAfter before d flips men.first (arriving men.last m.promo) →
        (left : Bool) × (IsTrue left ↔ LeavesTarget men side a b m.to) × (r : Setup) × SettlesTo q r ×
        HasStand d flips (stand_after before flips men a (arriving men.last m.promo) m.to) (other_side side) left r) }
    ensures comes { (c : ℕ) (men : ShelfMen) (first : Bool) (side : Side) (targeted : Bool) (a b : ℕ) (p : Setup) →
        c < 36 → men.first.kind ≢ K → men.last.kind ≡ P →
        HasStand c false (stand_in first men a b) side targeted p → (promo : Option Kind) (t : ℕ) →
        IsAdvance men side a b promo t → (d : ℕ) (before flips : Bool) →
        IsClassAfter before d flips men.first (arriving men.last promo) →
        (left : Bool) → (IsTrue left ↔ LeavesTarget men side a b t) → (r : Setup) →
        HasStand d flips (stand_after before flips men a (arriving men.last promo) t) (other_side side) left r →
        (m : Move) × (q : Setup) × Leads p m q × SettlesTo q r × IsAdvanceFrom p b promo m × (m.to ≡ t) }
{
    facts();
    men_beside_are_counted();
}

/// The captures by which the last man beside the kings, a pawn, is promoted lead to the three men who are left, and to
/// all positions of them.
pub fn promoting_captures_lead_to_three_men()
    ensures goes { (c : ℕ) (men : ShelfMen) (first : Bool) (side : Side) (targeted : Bool) (a b : ℕ) (p q : Setup)
        (m : Move) (kind : Kind) → c < 36 → men.first.kind ≢ K → men.last.kind ≡ P →
        HasStand c false (stand_in first men a b) side targeted p → Leads p m q → m.from ≡ b →
        IsOccupiedBy p.men m.to (other_side p.side) → m.promo ≡ Some kind →
        IsPromotingCapture men side kind a b × ((d : ℕ) (flips : Bool) → IsClassOf d flips (officer_of side kind) →
        HasStand d flips (stand_left flips (left_of men (officer_of side kind) a)) (other_side side) false q) }
    ensures comes { (c : ℕ) (men : ShelfMen) (first : Bool) (side : Side) (targeted : Bool) (a b : ℕ) (p : Setup)
        (kind : Kind) → c < 36 → men.first.kind ≢ K → men.last.kind ≡ P →
        HasStand c false (stand_in first men a b) side targeted p → IsPromotingCapture men side kind a b →
        (d : ℕ) (flips : Bool) → IsClassOf d flips (officer_of side kind) →
        (q : Setup) → HasStand d flips (stand_left flips (left_of men (officer_of side kind) a))
        (other_side side) false q → (m : Move) × Leads p m q × IsPromotingCaptureFrom p b kind m }
{
    facts();
    stands_follow_moves();
    men_beside_are_counted();
}

/// Where there is a target, the captures in passing of the last man, a pawn, lead to the three men who are left, and to
/// all positions of them.
pub fn captures_in_passing_lead_to_three_men()
    ensures goes { (c : ℕ) (men : ShelfMen) (first : Bool) (side : Side) (a b : ℕ) (p q : Setup) (m : Move) → c < 36 →
        men.first.kind ≢ K → men.last.kind ≡ P →
        HasStand c false (stand_in first men a b) side true p → Leads p m q → IsPassingFrom p b m →
        IsPassingCapture men side a b × ((d : ℕ) (flips : Bool) → IsClassOf d flips men.last →
        HasStand d flips (stand_left flips (left_of men men.last (ahead side a))) (other_side side) false q) }
    ensures comes { (c : ℕ) (men : ShelfMen) (first : Bool) (side : Side) (a b : ℕ) (p : Setup) → c < 36 →
        men.first.kind ≢ K → men.last.kind ≡ P →
        HasStand c false (stand_in first men a b) side true p → IsPassingCapture men side a b → (d : ℕ) (flips : Bool) →
        IsClassOf d flips men.last →
        (q : Setup) → HasStand d flips (stand_left flips (left_of men men.last (ahead side a)))
        (other_side side) false q → (m : Move) × Leads p m q × IsPassingFrom p b m }
{
    facts();
    stands_follow_moves();
    men_beside_are_counted();
}

/// Each legal move of a pawn is an advance, a capture of the man on the square where he arrives, by which he is
/// promoted or not, or a capture in passing; and where there is no target, none is of the last kind.
pub fn pawns_moves_are_of_four_kinds()
    ensures kinds { (p q : Setup) (b : ℕ) (m : Move) → Leads p m q → m.from ≡ b → IsOfFourKinds p b m }
    ensures without_a_target { (c : ℕ) (flips : Bool) (stand : Stand) (side : Side) (p : Setup) →
        HasStand c flips stand side false p → (p.target ≡ None) × ((b : ℕ) (m : Move) → ¬ IsPassingFrom p b m) }
{}
