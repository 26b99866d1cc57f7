//! The code of men on their squares.
ghost use Rattle.std.specs.Prelude.{◌≡◌, ◌≢◌, ◌+◌, ◌*◌, ◌^◌, ◌<◌, Bool, [], ◌∷◌, if◌then◌else◌};
ghost use Rattle.egt_index.specs.Prelude.{option_to_list, king_of, side_number, MayStand, White, Black, material_of};
ghost use Rattle.egt_index.specs.Prelude.{number_from, has_target, Splits, Tells, HasDigit, men_among, rest_of};

use crate::digits::{base, digit};
use crate::men::has_target;
use crate::stand::Stand;
use egt_board::{Kind, Man, Side, Square};
use egt_class::Class;

const BLACK_KING: Man = Man {
    side: Side::Black,
    kind: Kind::K,
};

/// The number with the digit of a man other than the white king behind it.
fn behind(number: u32, man: Man, square: Square) -> u32
    requires { number < 2 ^ 24 }
    ensures splits { man ≢ king_of White → MayStand man square → Splits result man number square }
    ensures few { result < (number + 1) * 64 }
{
    number * base(man) + u32::from(digit(man, square))
}

/// The number with the digit of the man, if there is one, behind it.
fn entry_behind(number: u32, entry: Option<(Man, Square)>) -> u32
    requires { number < 2 ^ 24 }
    ensures tells { HasDigit entry → (pawns : Bool) →
        Tells pawns result (men_among (option_to_list entry)) number (option_to_list entry) }
    ensures few { result < (number + 1) * 64 }
{
    match entry {
        Some(placed) => behind(number, placed.0, placed.1),
        None => number,
    }
}

/// The number of the digits of the men beside the white king behind those that made `high`.
pub(crate) fn number_behind(high: u32, stand: &Stand) -> u32
    requires { high < 32 }
    ensures tells { HasDigit stand.now.first → HasDigit stand.now.last → (pawns : Bool) →
        Tells pawns result (men_among (rest_of stand.now)) high (rest_of stand.now) }
    ensures small { result < 32 * 64 ^ 3 }
{
    let king = behind(high, BLACK_KING, stand.black);
    let next = entry_behind(king, stand.first);
    entry_behind(next, stand.last)
}

/// The number with the digits of the side to move and of the target behind it: whether a pawn has passed one.
pub(crate) fn with_side(class: Class, side: Side, targeted: bool, number: u32) -> u32
    requires { number < 32 * 64 ^ 3 }
    ensures { result ≡ number_from number (2 ∷ (if has_target (material_of class) then 2 ∷ [] else []))
        (side_number side ∷ (if has_target (material_of class) then (if targeted then 1 else 0) ∷ [] else [])) }
{
    let side = match side {
        Side::White => 0,
        Side::Black => 1,
    };
    let with_side = number * 2 + side;
    if !has_target(class) {
        return with_side;
    }
    if targeted {
        with_side * 2 + 1
    } else {
        with_side * 2
    }
}
