//! Laws of captures and promotions. These functions do nothing: a caller calls one to know what it ensures.
ghost use Rattle.egt_moves.specs.Prelude.{Setup, IsAdmissible, Move, Exchanges, Leads};

use egt_board::counting::one_square_changes;

/// A legal move takes one man of the enemy or none, and puts the man that moves, or what it is promoted to, in its
/// place.
pub fn moves_exchange_men()
    ensures { (p q : Setup) (m : Move) → IsAdmissible p → Leads p m q → Exchanges p m q }
{
    one_square_changes();
}

/// What a legal move leads to is admissible.
pub fn moves_keep_admissibility()
    ensures { (p q : Setup) (m : Move) → IsAdmissible p → Leads p m q → IsAdmissible q }
{}
