//! The men of positions before and after a step. This function does nothing: a caller calls it to know what it ensures.
ghost use Rattle.std.specs.Prelude.{◌≡◌, ◌≢◌, ◌↔◌, ◌<◌, ℕ, Bool, false};
ghost use Rattle.egt_steps.specs.Prelude.{other_side, IsFree, Stands, Setup, Man, Side, IsListed, HasStand, IsOff};
ghost use Rattle.egt_steps.specs.Prelude.{list_of, IsMovedStand, Stand, IsMoved};

use egt_index::facts::facts;

/// The men of a position are those of its stand, and no others. A position after one man went to a free square, with
/// the other side to move and no target, has the men after that; and one that has them is such a position.
pub fn stands_follow_moves()
    ensures listed { (c : ℕ) (stand : Stand) (side : Side) (targeted : Bool) (p : Setup) (s : ℕ) (man : Man) →
        HasStand c false stand side targeted p →
        Stands p.men s man ↔ IsListed (list_of stand) man s }
    ensures free { (c : ℕ) (stand : Stand) (side : Side) (targeted : Bool) (p : Setup) (s : ℕ) →
        HasStand c false stand side targeted p → IsFree p.men s ↔ IsOff (list_of stand) s }
    ensures moved { (c from to : ℕ) (p q : Setup) (stand after : Stand) (side : Side) (targeted : Bool) →
        HasStand c false stand side targeted p → IsMovedStand from to stand after →
        IsMoved c p from to q → HasStand c false after (other_side side) false q }
    ensures back { (c from to : ℕ) (p q : Setup) (man : Man) (stand after : Stand) (side : Side) (targeted : Bool) →
        c < 36 → to < 64 → to ≢ from → Stands p.men from man →
        HasStand c false stand side targeted p → IsMovedStand from to stand after →
        HasStand c false after (other_side side) false q → IsMoved c p from to q }
{
    facts();
}
