//! The codes of a class with one man beside the kings, by the squares of the kings.
ghost use Rattle.std.specs.Prelude.{IfSome, IfNone};
ghost use Rattle.egt_index.specs.Prelude.{Man, material_of, IsAtHome, IsLoneMan, IsLoneRow, has_pawns};

use crate::digits::king_digit;
use crate::men::{has_pawns, non_kings};
use crate::shelf::digits_of;
use egt_board::{Man, Square};
use egt_class::Class;

/// The man of a class with one man beside the kings. `None` of other classes.
pub fn lone_man(class: Class) -> Option<Man>
    ensures lone { IfSome result (IsLoneMan class) }
    ensures none { IfNone result ((man : Man) → ¬ IsLoneMan class man) }
{
    match non_kings(class) {
        (Some(man), None) => Some(man),
        _ => None,
    }
}

/// The first of the codes with the kings on these squares, which follow one another by the man's digit. `None` where
/// the white king is not at home.
pub fn lone_row(class: Class, man: Man, white: Square, black: Square) -> Option<u32>
    requires { IsLoneMan class man }
    ensures row { IfSome result (λ first. IsLoneRow class first white black man) }
    ensures none { IfNone result (¬ IsAtHome (has_pawns (material_of class)) white) }
{
    let _number = class.number();
    let _black = black.number();
    let high = king_digit(has_pawns(class), white)?;
    let kings = u32::from(high) * 64 + u32::from(black.number());
    Some(kings * digits_of(man) * 2)
}
