//! Which codes the kings alone tell to be void: their digits are the highest.
ghost use Rattle.std.specs.Prelude.{◌≡◌, ◌+◌, ◌*◌, ◌<◌, ◌/◌, ◌%◌, ◌==◌, true};
ghost use Rattle.egt_index.specs.Prelude.{turned_square, AreNearest, IsVoidAfter, AreNear};

use crate::facts::facts;
use crate::home::home;
use crate::men::{has_equal_sides, has_pawns};
use crate::stand::{Stand, are_near};
use crate::turning::turned_square;
use egt_board::Square;
use egt_class::Class;

/// Two squares as a number, in order of the first.
pub(crate) fn pair(first: Square, second: Square) -> u16
    ensures { result ≡ 64 * first + second }
{
    64 * u16::from(first.number()) + u16::from(second.number())
}

/// The squares of the kings after the turn, as a number.
pub(crate) fn kings_after(white: Square, black: Square, turn: u8) -> u16
    requires { turn < 16 }
    ensures { result ≡ 64 * turned_square (turn % 8) (turn / 8 == 1) white + turned_square (turn % 8)
        (turn / 8 == 1) black }
{
    pair(turned_square(turn, white), turned_square(turn, black))
}

/// The squares of the kings, as a number, after the turn that brings the white king home, with colours exchanged or
/// not: the lesser where there are two turns.
fn home_kings(class: Class, white: Square, black: Square, flips: bool) -> u16
    ensures { AreNearest class flips white black result }
{
    facts();
    let _number = class.number();
    let (first, second) = home(has_pawns(class), flips, white);
    let kings = kings_after(white, black, first);
    match second {
        Some(turn) => kings.min(kings_after(white, black, turn)),
        None => kings,
    }
}

/// Whether the kings tell that no code of men with them here is a position's index after the turn, so that its entry
/// need not be read: they stand beside one another, or another turn brings them to lesser squares. `white` is the
/// square of the king who is White's after the turn.
pub fn is_void_after(class: Class, white: Square, black: Square, turn: u8) -> bool
    requires { turn < 16 }
    ensures void { result ≡ true → IsVoidAfter class white black turn }
    ensures near { AreNear white black → result ≡ true }
{
    facts();
    let _number = class.number();
    if are_near(white, black) {
        return true;
    }
    let flips = turn / 8 == 1;
    let own = kings_after(white, black, turn);
    if home_kings(class, white, black, flips) < own {
        return true;
    }
    has_equal_sides(class) && home_kings(class, black, white, !flips) < own
}
