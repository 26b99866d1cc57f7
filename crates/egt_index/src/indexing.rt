//! The index of a position.
ghost use Rattle.std.specs.Prelude.{◌≡◌, ◌<◌, ◌%◌, ◌/◌, ◌==◌, Bool, true, None};
ghost use Rattle.egt_index.specs.Prelude.{is_some, HasAllMen, Setup, IsAdmissible, SettlesTo, KeepsPlay, turned_side};
ghost use Rattle.egt_index.specs.Prelude.{has_equal_sides, IsOf, LeastWith, IsIndex, HasStand, Best, CodeAfter, lesser};

use crate::codes::{number_behind, with_side};
use crate::digits::king_digit;
use crate::equal_men::stand_after;
use crate::facts::facts;
use crate::home::home;
use crate::men::{has_equal_sides, has_pawns};
use crate::stand::{Arrangement, Stand, arrangement_by, arrangement_of, exchanged, man_of};
use egt_board::{Man, Position, Side, Square};
use egt_class::laws::men_beside_are_counted;
use egt_class::{Class, of_men};

/// The side, or the other one where colours are exchanged.
fn side_after(side: Side, flips: bool) -> Side
    ensures { result ≡ turned_side flips side }
{
    if flips { side.other() } else { side }
}

/// The least code of what the turn makes of a settled position with these men of the class, if it has one.
fn code_after(class: Class, stand: &Stand, side: Side, targeted: bool, turn: u8) -> Option<u32>
    requires { turn < 16 }
    ensures { (p : Setup) → HasStand class (turn / 8 == 1) stand.now side targeted p → KeepsPlay (turn % 8) p.men →
        CodeAfter class p turn result }
{
    facts();
    let _number = class.number();
    let after = stand_after(stand, turn);
    let side = side_after(side, turn / 8 == 1);
    let high = king_digit(has_pawns(class), after.white)?;
    let number = number_behind(u32::from(high), &after);
    Some(with_side(class, side, targeted, number))
}

/// The lesser of two codes, if there are any.
fn lesser(least: Option<u32>, code: Option<u32>) -> Option<u32>
    ensures { result ≡ lesser least code }
{
    let Some(code) = code else {
        return least;
    };
    match least {
        Some(other) => Some(other.min(code)),
        None => Some(code),
    }
}

/// The least code of what the turns that exchange colours, or those that do not, make of a settled position of the
/// class. Only one or two of them bring the white king to a square of his digit.
fn least_with(class: Class, stand: &Stand, side: Side, targeted: bool, flips: bool) -> Option<u32>
    ensures { (p : Setup) → HasStand class flips stand.now side targeted p → LeastWith class p flips result }
{
    facts();
    let (first, second) = home(has_pawns(class), flips, stand.white);
    let code = code_after(class, stand, side, targeted, first);
    match second {
        Some(second) => {
            let other = code_after(class, stand, side, targeted, second);
            lesser(code, other)
        }
        None => code,
    }
}

/// The least code of all images of a settled position of a class whose sides have the same men.
fn least_of_both(
    class: Class,
    stand: &Stand,
    side: Side,
    targeted: bool,
    flipped: bool,
) -> Option<u32>
    requires { has_equal_sides class ≡ true }
    ensures { (p : Setup) → HasStand class flipped stand.now side targeted p → Best class p 16 result }
{
    facts();
    let _number = class.number();
    let others = exchanged(stand);
    let other = least_with(class, &others, side, targeted, !flipped);
    let own = least_with(class, stand, side, targeted, flipped);
    lesser(own, other)
}

/// The least code of all images of a settled position of the class.
fn least_arranged(class: Class, men: &Arrangement, side: Side, targeted: bool) -> Option<u32>
    ensures { (p : Setup) → HasStand class men.now.flipped men.now.stand side targeted p →
        Best class p 16 result }
{
    facts();
    let _number = class.number();
    if has_equal_sides(class) {
        least_of_both(class, &men.stand, side, targeted, men.flipped)
    } else {
        least_with(class, &men.stand, side, targeted, men.flipped)
    }
}

/// Whether the position has a target that a pawn stands ready to take.
fn keeps_target(position: &Position) -> bool
    ensures { (q : Setup) → SettlesTo position.now q → is_some q.target ≡ result }
{
    match position.target() {
        Some(_) => position.is_settled(),
        None => false,
    }
}

/// The index of a position of the class, in whatever colours: the least code that spells an image of its settled form.
pub fn index(class: Class, position: &Position) -> u32
    requires { (flipped : Bool) × IsOf class flipped position.now }
    ensures { IsIndex class position.now result }
{
    facts();
    let side = position.side();
    let arrangement = arrangement_of(class, position);
    let targeted = keeps_target(position);
    least_arranged(class, &arrangement, side, targeted).unwrap()
}

/// The class of a position without a target and its index there, by its men alone: the kings' squares, the men beside
/// the kings, in whatever order, and the side to move.
pub fn indexed_by_men(
    white: Square,
    black: Square,
    one: Option<(Man, Square)>,
    other: Option<(Man, Square)>,
    side: Side,
) -> (Class, u32)
    requires { (p : Setup) × IsAdmissible p × HasAllMen p.men white black one other × (p.side ≡ side) ×
        (p.target ≡ None) }
    ensures { (p : Setup) → IsAdmissible p → HasAllMen p.men white black one other → p.side ≡ side → p.target ≡ None →
        ((flipped : Bool) × IsOf result.0 flipped p) × IsIndex result.0 p result.1 }
{
    facts();
    men_beside_are_counted();
    let (class, flipped) = of_men(man_of(&one), man_of(&other));
    let arrangement = arrangement_by(class, flipped, white, black, &one, &other);
    let index = least_arranged(class, &arrangement, side, false).unwrap();
    (class, index)
}
