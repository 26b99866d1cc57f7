//! The men of a shelf of numbers: but for the last one they stand on the same squares in all of its positions. A code
//! tells its men by their digits, whether it is the least for its position or not, so what is told here needs no
//! comparison of codes.
ghost use Rattle.std.specs.Prelude.{◌≡◌, ◌+◌, ◌-◌, ◌*◌, ◌<◌, Some, IfSome, IfNone};
ghost use Rattle.egt_index.specs.Prelude.{MayStand, Man, kind_digits, kind_less, AreMenOf, HasShelf, HasTwoBeside};
ghost use Rattle.egt_index.specs.Prelude.{IsShelf, IsShelfOf, IsWithin};

use crate::digits::king_digit;
use crate::men::{has_pawns, non_kings};
use crate::numbers::{prefix_number, shelf_behind};
use crate::shelf::digits_of;
use crate::spelling::stand_before;
use egt_board::{Kind, Man, Square};
use egt_class::Class;

/// Where the men of a shelf stand, and who its last man is, whose square is his digit's.
#[derive(Clone, Copy)]
pub struct ShelfMen {
    pub white: Square,
    pub black: Square,
    /// The man beside the kings who stands still.
    pub first: Man,
    /// Where he stands.
    pub on: Square,
    pub last: Man,
}

/// The digit of a man beside the white king on the square. `None` of a pawn on the first rank or the last.
fn digit_on(man: Man, square: Square) -> Option<u32>
    ensures may { IfSome result (λ _. MayStand man square) }
    ensures is { IfSome result (λ digit. digit ≡ square - kind_less man.kind) }
    ensures below { IfSome result (λ digit. digit < kind_digits man.kind) }
    ensures none { IfNone result (¬ MayStand man square) }
{
    let number = u32::from(square.number());
    match man.kind {
        Kind::P => {
            if number < 8 || number >= 56 {
                return None;
            }
            Some(number - 8)
        }
        _ => Some(number),
    }
}

/// The men of the shelf with this number, of a class with two men beside the kings. `None` of other classes, and past
/// the last shelf.
pub fn shelf_men(class: Class, shelf: u32) -> Option<ShelfMen>
    ensures shelf { IfSome result (IsShelf class shelf) }
    ensures none { IfNone result (HasTwoBeside class → ¬ IsWithin class shelf) }
{
    let _number = class.number();
    let (_, last) = non_kings(class);
    let last = last?;
    let (prefix, _) = prefix_number(class, shelf)?;
    let stand = stand_before(class, prefix)?;
    let (first, on) = stand.first?;
    Some(ShelfMen {
        white: stand.white,
        black: stand.black,
        first,
        on,
        last,
    })
}

/// The number of the shelf with these men, of positions with a target where one was passed. `None` where the white king
/// is not at home, a pawn stands on the first rank or the last, and where the class has no targets but one was passed.
pub fn shelf_of(class: Class, men: &ShelfMen, targeted: bool) -> Option<u32>
    requires men { AreMenOf class men.now }
    ensures shelf { IfSome result (λ shelf. IsShelfOf targeted class shelf men.now) }
    ensures within { IfSome result (IsWithin class) }
    ensures none { IfNone result (¬ HasShelf targeted class men.now) }
{
    let _number = class.number();
    let _black = men.black.number();
    let _on = men.on.number();
    let high = king_digit(has_pawns(class), men.white)?;
    let digit = digit_on(men.first, men.on)?;
    let kings = u32::from(high) * 64 + u32::from(men.black.number());
    let prefix = kings * digits_of(men.first) + digit;
    shelf_behind(class, prefix, targeted)
}
