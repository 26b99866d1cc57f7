//! Of what class a position is.
ghost use Rattle.std.specs.Prelude.{◌≡◌, ◌<◌, ◌+◌, ◌*◌, IsTrue, false};
ghost use Rattle.egt_class.specs.Prelude.{option_map, Setup, has_equal_sides, IsOf, slot_of, class_at, flip_at};
ghost use Rattle.egt_class.specs.Prelude.{AreNonKings};

use crate::class::Class;
use egt_board::counting::{one_king_is_counted, one_square_changes};
use egt_board::{Kind, Man, Position, Side, Square};

/// The class by the two men beside the kings: eleven rows for the one man, of eleven for the other: for no man, for
/// White's queen, rook, bishop, knight and pawn, and for Black's.
static NUMBERS: [u8; 121] = [
    0, 1, 2, 3, 4, 5, 1, 2, 3, 4, 5, 1, 6, 7, 8, 9, 26, 16, 17, 18, 19, 30, 2, 7, 10, 11, 12, 27,
    17, 20, 21, 22, 31, 3, 8, 11, 13, 14, 28, 18, 21, 23, 24, 32, 4, 9, 12, 14, 15, 29, 19, 22, 24,
    25, 33, 5, 26, 27, 28, 29, 34, 30, 31, 32, 33, 35, 1, 16, 17, 18, 19, 30, 6, 7, 8, 9, 26, 2,
    17, 20, 21, 22, 31, 7, 10, 11, 12, 27, 3, 18, 21, 23, 24, 32, 8, 11, 13, 14, 28, 4, 19, 22, 24,
    25, 33, 9, 12, 14, 15, 29, 5, 30, 31, 32, 33, 35, 26, 27, 28, 29, 34,
];

/// Whether colours are to be flipped for White to be the side that the class's name gives first.
static FLIPS: [bool; 121] = [
    false, false, false, false, false, false, true, true, true, true, true, false, false, false,
    false, false, false, false, false, false, false, false, false, false, false, false, false,
    false, true, false, false, false, false, false, false, false, false, false, false, true, true,
    false, false, false, false, false, false, false, false, false, true, true, true, false, false,
    false, false, false, false, false, false, true, true, true, true, false, true, false, true,
    true, true, true, true, true, true, true, true, true, false, false, true, true, true, true,
    true, true, true, true, true, false, false, false, true, true, true, true, true, true, true,
    true, false, false, false, false, true, true, true, true, true, true, true, false, false,
    false, false, false, true, true, true, true, true,
];

/// The row of a man beside the kings, or of none.
fn slot(man: Option<Man>) -> usize
    ensures value { result ≡ slot_of man }
    ensures below { result < 11 }
{
    let Some(man) = man else {
        return 0;
    };
    let first = match man.side {
        Side::White => 1,
        Side::Black => 6,
    };
    match man.kind {
        Kind::Q => first,
        Kind::R => first + 1,
        Kind::B => first + 2,
        Kind::N => first + 3,
        Kind::P => first + 4,
        Kind::K => 0,
    }
}

/// The man of the entry, if there is one.
fn man_of(entry: Option<(Man, Square)>) -> Option<Man>
    ensures { result ≡ option_map (λ e. e.0) entry }
{
    let (man, _) = entry?;
    Some(man)
}

/// The men beside the kings, in order of square.
fn non_kings(position: &Position) -> (Option<Man>, Option<Man>)
    ensures { AreNonKings position.now result.0 result.1 }
{
    one_square_changes();
    one_king_is_counted();
    let _side = position.side();
    let (first, second) = position.board().non_kings();
    (man_of(first), man_of(second))
}

/// The table's class and flip for a pair of rows.
fn class_of_pair(first: usize, second: usize) -> (Class, bool)
    requires first { first < 11 }
    requires second { second < 11 }
    ensures class { result.0 ≡ class_at (11 * first + second) }
    ensures flip { result.1 ≡ flip_at (11 * first + second) }
{
    let at = 11 * first + second;
    let number = NUMBERS[at];
    let flipped = FLIPS[at];
    (Class::at(number), flipped)
}

/// The class of every position with these men beside the kings, in whatever order, and whether colours are to be
/// flipped there.
#[inline(always)]
pub fn of_men(one: Option<Man>, other: Option<Man>) -> (Class, bool)
    ensures class { (p : Setup) → AreNonKings p one other → IsOf result.0 result.1 p }
    ensures unflipped { IsTrue (has_equal_sides result.0) → result.1 ≡ false }
{
    class_of_pair(slot(one), slot(other))
}

/// The class of a position, and whether colours are to be flipped for White to be the side that the name gives first;
/// never so where both sides have the same men.
pub fn of(position: &Position) -> (Class, bool)
    ensures class { IsOf result.0 result.1 position.now }
    ensures unflipped { IsTrue (has_equal_sides result.0) → result.1 ≡ false }
{
    let (first, second) = non_kings(position);
    of_men(first, second)
}
