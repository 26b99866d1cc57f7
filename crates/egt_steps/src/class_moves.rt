//! Which classes single moves lead to. This function does nothing: a caller calls it to know what it ensures.
ghost use Rattle.std.specs.Prelude.{◌≡◌, ◌<◌, ◌⊎◌, ℕ, Bool, None, IsSome};
ghost use Rattle.egt_steps.specs.Prelude.{Contains, Setup, IsAdmissible, children_of, IsOf, Captures, Leads, Move};

use egt_board::counting::one_king_is_counted;
use egt_moves::exchanging::{moves_exchange_men, moves_keep_admissibility};

/// A move that neither captures nor promotes stays in the class; any other leads into a child of it.
pub fn moves_lead_into_the_class_or_a_child()
    ensures quiet { (p q : Setup) (m : Move) (c : ℕ) (flipped : Bool) → IsAdmissible p → IsOf c flipped p →
        Leads p m q → ¬ Captures p m → m.promo ≡ None → IsOf c flipped q }
    ensures other { (p q : Setup) (m : Move) (c : ℕ) (flipped : Bool) → c < 36 → IsAdmissible p → IsOf c flipped p →
        Leads p m q → Captures p m ⊎ IsSome m.promo →
        (d : ℕ) × (turned : Bool) × Contains (children_of c) d × IsOf d turned q }
    ensures any { (p q : Setup) (m : Move) (c : ℕ) (flipped : Bool) → c < 36 → IsAdmissible p → IsOf c flipped p →
        Leads p m q → IsOf c flipped q ⊎ ((d : ℕ) × (turned : Bool) × Contains (children_of c) d × IsOf d turned q) }
{
    moves_exchange_men();
    moves_keep_admissibility();
    one_king_is_counted();
}
