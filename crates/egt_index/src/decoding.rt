//! The position of a code.
ghost use Rattle.std.specs.Prelude.{IfSome, IfNone};
ghost use Rattle.egt_index.specs.Prelude.{IsSettled, Setup, Spells, IsIndex, IsVoid};

use crate::facts::facts;
use crate::indexing::index;
use crate::spelling::{admitted, board_of, ends, is_settled, stand_on, target_of};
use crate::stand::are_apart;
use egt_board::Position;
use egt_class::Class;

/// The settled position that the code spells, if it spells one.
fn settled_position(class: Class, code: u32) -> Option<Position>
    ensures spells { IfSome result (λ p. Spells class code p) }
    ensures settled { IfSome result IsSettled }
    ensures none { IfNone result ((p : Setup) → Spells class code p → ¬ IsSettled p) }
{
    let _number = class.number();
    let (number, side, targeted) = ends(class, code);
    let stand = stand_on(class, number)?;
    if !are_apart(&stand) {
        return None;
    }
    let target = target_of(side, targeted, &stand);
    let board = board_of(&stand);
    let position = admitted(board, side, target, stand.white, stand.black)?;
    if is_settled(&position) {
        Some(position)
    } else {
        None
    }
}

/// The settled position that the code spells; `None` where the code is no position's index, and so from the class's
/// size on.
pub fn position(class: Class, code: u32) -> Option<Position>
    ensures spells { IfSome result (λ p. Spells class code p) }
    ensures settled { IfSome result IsSettled }
    ensures index { IfSome result (λ p. IsIndex class p code) }
    ensures void { IfNone result (IsVoid class code) }
{
    facts();
    let position = settled_position(class, code)?;
    if index(class, &position) == code {
        Some(position)
    } else {
        None
    }
}
