//! The squares of men beside the kings in codes: a pawn has no digit for the first rank and the last.
ghost use Rattle.std.specs.Prelude.{◌≡◌, ◌+◌, ◌<◌, IfSome};
ghost use Rattle.egt_blocks.specs.Prelude.{kind_digits, kind_less};

use crate::own_men::is_pawn;
use egt_board::{Man, Square};

/// How many digits the man has.
pub fn digits_of(man: Man) -> u8
    ensures { result ≡ kind_digits man.kind }
{
    if is_pawn(man) { 48 } else { 64 }
}

/// The square of his first digit.
pub fn first_square(man: Man) -> u8
    ensures { result ≡ kind_less man.kind }
{
    if is_pawn(man) { 8 } else { 0 }
}

/// His digit on the square. `None` of a pawn on the first rank or the last.
pub fn digit_on(man: Man, square: Square) -> Option<u32>
    ensures below { IfSome result (λ digit. digit < kind_digits man.kind) }
    ensures is { IfSome result (λ digit. digit + kind_less man.kind ≡ square) }
{
    let number = u32::from(square.number());
    if !is_pawn(man) {
        return Some(number);
    }
    if number < 8 || number >= 56 {
        return None;
    }
    Some(number - 8)
}
