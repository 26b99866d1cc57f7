//! Prefixes: the men before the last one, and what they tell of all codes with them, which differ by the last man's
//! square, the side to move and the target, and follow one another.
ghost use Rattle.std.specs.Prelude.{◌≡◌, IfSome, IfNone};
ghost use Rattle.egt_index.specs.Prelude.{IsFirstOfTwo, IsPrefix, IsPrefixOf, SpellsNothing};

use crate::facts::facts;
use crate::least_code::{Minimality, minimality_in_order};
use crate::men::non_kings;
use crate::spelling::{board_of, stand_before};
use crate::stand::{Stand, are_apart, are_near};
use egt_board::{Board, Man, Square};
use egt_class::Class;

/// Where the men before the last one stand, and what they tell.
#[derive(Clone, Copy)]
pub(crate) struct Prefix {
    /// Without the last man.
    pub(crate) stand: Stand,
    pub(crate) board: Board,
    /// Whether each code is to be asked about alone.
    pub(crate) tied: bool,
}

/// The men before the last one who have these digits, whether codes are least or not. `None` where no code with them
/// spells a position.
pub(crate) fn spelled_prefix(class: Class, number: u32) -> Option<Prefix>
    ensures some { IfSome result (IsPrefix class number) }
    ensures none { IfNone result (SpellsNothing class number) }
{
    let _number = class.number();
    let stand = stand_before(class, number)?;
    if are_near(stand.white, stand.black) {
        return None;
    }
    if !are_apart(&stand) {
        return None;
    }
    let board = board_of(&stand);
    Some(Prefix {
        stand,
        board,
        tied: true,
    })
}

/// The first man of the class with his square, where the last man is another: his digit comes behind those of the
/// kings.
fn first_of_two(class: Class, next: Option<(Man, Square)>) -> Option<(Man, Square)>
    ensures first { IfSome result (λ e. IsFirstOfTwo class e.0) }
    ensures is { IfSome result (λ e. next ≡ Some e) }
{
    let (man, square) = next?;
    let (first, last) = non_kings(class);
    if first? == man && last? != man {
        Some((man, square))
    } else {
        None
    }
}

/// The men before the last one who have these digits, with what they tell; `None` where no code with these men is a
/// position's index.
pub(crate) fn prefix_of(class: Class, number: u32) -> Option<Prefix>
    ensures { IsPrefixOf class number result }
{
    facts();
    let _number = class.number();
    let prefix = spelled_prefix(class, number)?;
    let stand = &prefix.stand;
    let first = first_of_two(class, stand.first);
    match minimality_in_order(class, stand.white, stand.black, first) {
        Minimality::Beaten => None,
        Minimality::Least => Some(Prefix {
            tied: false,
            ..prefix
        }),
        Minimality::Tied => Some(prefix),
    }
}
