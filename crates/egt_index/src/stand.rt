//! The men of a class on their squares.
ghost use Rattle.std.specs.Prelude.{◌≡◌, ◌<◌, ◌%◌, ◌/◌, ◌==◌, ◌↔◌, IsTrue, IfSome, Bool, None, if◌then◌else◌};
ghost use Rattle.egt_index.specs.Prelude.{option_to_list, Setup, IsAdmissible, before_last, entry_after, on_square_of};
ghost use Rattle.egt_index.specs.Prelude.{option_map, HasAllMen, turned_man, IsAmong, with_last, AllApart, IsTurned};
ghost use Rattle.egt_index.specs.Prelude.{IsOf, Stood, Holds, IsOn, IsFirst, list_of, IsOff, AreNear};

use crate::facts::facts;
use crate::men::non_kings;
use crate::turning::turned_square;
use egt_board::{Man, Position, Side, Square};
use egt_class::Class;

/// The squares of a class's men: of the white king, the black king and the other men in the order of the name. Where
/// colours are flipped, the white king's square is that on which the black king stands, and so on.
#[derive(Clone, Copy)]
pub struct Stand {
    pub white: Square,
    pub black: Square,
    pub first: Option<(Man, Square)>,
    pub last: Option<(Man, Square)>,
}

/// Whether the men are the same.
fn is_same(one: Man, other: Man) -> bool
    ensures { IsTrue result ↔ (one ≡ other) }
{
    (one.side == other.side) & (one.kind == other.kind)
}

/// Whether the entry is of this man.
fn is_of(entry: &Option<(Man, Square)>, man: Man) -> bool
    ensures { IsTrue result ↔ Holds entry.now man }
{
    match entry {
        Some(placed) => is_same(placed.0, man),
        None => false,
    }
}

/// Whether the man, if there is one, is one of the two.
fn is_among(man: &Option<Man>, one: &Option<(Man, Square)>, other: &Option<(Man, Square)>) -> bool
    ensures { IsTrue result ↔ IsAmong man.now one.now other.now }
{
    match man {
        Some(man) => is_of(one, *man) | is_of(other, *man),
        None => true,
    }
}

/// Whether the one man is the other, of the other side where colours are flipped.
fn is_turned(one: Man, other: Man, flips: bool) -> bool
    ensures { IsTrue result ↔ (one ≡ turned_man flips other) }
{
    let same_side = one.side == other.side;
    (one.kind == other.kind) & (same_side != flips)
}

/// Whether the man, of the other side where colours are flipped, is the one found, if there is a man.
fn is_first(man: &Option<Man>, flips: bool, one: &Option<(Man, Square)>) -> bool
    ensures { IsTrue result ↔ IsFirst man.now flips one.now }
{
    let Some(man) = man else {
        return true;
    };
    match one {
        Some(placed) => is_turned(placed.0, *man, flips),
        None => false,
    }
}

/// The square of the one found; any square where there is none.
pub(crate) fn square_of(found: &Option<(Man, Square)>) -> Square
    ensures { IsOn found.now result }
{
    match found {
        Some((_, square)) => *square,
        None => Square::at(0),
    }
}

/// The man of the entry, if there is one.
pub(crate) fn man_of(entry: &Option<(Man, Square)>) -> Option<Man>
    ensures { result ≡ option_map (λ e. e.0) entry.now }
{
    match entry {
        Some((man, _)) => Some(*man),
        None => None,
    }
}

/// The one square or the other.
fn either(first: bool, one: Square, other: Square) -> Square
    ensures { result ≡ (if first then one else other) }
{
    if first { one } else { other }
}

/// The man of the class, if there is one, on the square.
fn placed(man: Option<Man>, square: Square) -> Option<(Man, Square)>
    ensures { result ≡ option_map (λ m. (m, square)) man }
{
    let man = man?;
    Some((man, square))
}

/// Where the men of a class stand in a position, and whether there its colours are exchanged.
#[derive(Clone, Copy)]
pub(crate) struct Arrangement {
    pub(crate) flipped: bool,
    pub(crate) stand: Stand,
}

/// Where these men, in whatever order beside the kings, stand in the class.
#[inline(always)]
pub(crate) fn stand_by(
    class: Class,
    flipped: bool,
    white: Square,
    black: Square,
    one: &Option<(Man, Square)>,
    other: &Option<(Man, Square)>,
) -> Stand
    ensures { (p : Setup) → IsAdmissible p → IsOf class flipped p → HasAllMen p.men white black one.now other.now →
        Stood class flipped p.men (list_of result) }
{
    let (first, second) = non_kings(class);
    let in_order = is_first(&first, flipped, one);
    let (one, other) = (square_of(one), square_of(other));
    Stand {
        white: either(flipped, black, white),
        black: either(flipped, white, black),
        first: placed(first, either(in_order, one, other)),
        last: placed(second, either(in_order, other, one)),
    }
}

/// Where the men of a position of the class stand. The first man of the name beside the king tells the colours: no
/// class whose sides differ has him on both.
#[inline(always)]
pub(crate) fn arrangement_of(class: Class, position: &Position) -> Arrangement
    requires { (flipped : Bool) × IsOf class flipped position.now }
    ensures is_of { IsOf class result.flipped position.now }
    ensures stood { Stood class result.flipped position.now.men (list_of result.stand) }
{
    facts();
    let _number = class.number();
    let _side = position.side();
    let (first, _) = non_kings(class);
    let (one, other) = position.board().non_kings();
    let white = position.king(Side::White);
    let black = position.king(Side::Black);
    let flipped = !is_among(&first, &one, &other);
    Arrangement {
        flipped,
        stand: stand_by(class, flipped, white, black, &one, &other),
    }
}

/// Where these men, in whatever order beside the kings, stand in their class, in colours exchanged where `flipped`.
#[inline(always)]
pub(crate) fn arrangement_by(
    class: Class,
    flipped: bool,
    white: Square,
    black: Square,
    one: &Option<(Man, Square)>,
    other: &Option<(Man, Square)>,
) -> Arrangement
    ensures flipped { result.flipped ≡ flipped }
    ensures stood { (p : Setup) → IsAdmissible p → IsOf class flipped p →
        HasAllMen p.men white black one.now other.now → Stood class flipped p.men (list_of result.stand) }
{
    Arrangement {
        flipped,
        stand: stand_by(class, flipped, white, black, one, other),
    }
}

/// The man where the turn takes it.
fn entry_after(entry: Option<(Man, Square)>, turn: u8) -> Option<(Man, Square)>
    requires { turn < 16 }
    ensures { result ≡ entry_after (turn % 8) (turn / 8 == 1) entry }
{
    match entry {
        Some((man, square)) => Some((man, turned_square(turn, square))),
        None => None,
    }
}

/// Where the turn takes the men.
pub(crate) fn turned(stand: &Stand, turn: u8) -> Stand
    requires { turn < 16 }
    ensures { IsTurned (turn % 8) (turn / 8 == 1) stand.now result }
{
    Stand {
        white: turned_square(turn, stand.white),
        black: turned_square(turn, stand.black),
        first: entry_after(stand.first, turn),
        last: entry_after(stand.last, turn),
    }
}

/// The man of the one entry on the square of the other, if there are both.
fn on_square_of(entry: Option<(Man, Square)>, other: Option<(Man, Square)>) -> Option<(Man, Square)>
    ensures { result ≡ on_square_of entry other }
{
    match (entry, other) {
        (Some((man, _)), Some((_, square))) => Some((man, square)),
        _ => entry,
    }
}

/// The men of a class whose sides have the same, seen with colours exchanged: each stands where the other side's does.
pub(crate) fn exchanged(stand: &Stand) -> Stand
    ensures white { result.white ≡ stand.now.black }
    ensures black { result.black ≡ stand.now.white }
    ensures first { result.first ≡ on_square_of stand.now.first stand.now.last }
    ensures last { result.last ≡ on_square_of stand.now.last stand.now.first }
{
    Stand {
        white: stand.black,
        black: stand.white,
        first: on_square_of(stand.first, stand.last),
        last: on_square_of(stand.last, stand.first),
    }
}

/// Whether the man of the entry, if there is one, stands off the square.
fn is_off(entry: Option<(Man, Square)>, square: Square) -> bool
    ensures { IsTrue result ↔ IsOff (option_to_list entry) square }
{
    match entry {
        Some((_, other)) => other != square,
        None => true,
    }
}

/// The men, with this one as the last, if there is one.
#[inline(always)]
pub(crate) fn with_last(stand: &Stand, last: Option<(Man, Square)>) -> Stand
    ensures { result ≡ with_last stand.now last }
{
    Stand {
        white: stand.white,
        black: stand.black,
        first: stand.first,
        last,
    }
}

/// Whether the last man, if there is one, stands off the squares of the others.
#[inline(always)]
pub(crate) fn is_last_off(stand: &Stand) -> bool
    ensures { IsTrue result ↔ IfSome stand.now.last (λ e. IsOff (before_last stand.now) e.1) }
{
    match stand.last {
        Some((_, square)) => {
            (stand.white != square) & (stand.black != square) & is_off(stand.first, square)
        }
        None => true,
    }
}

/// Whether no two of the men stand on one square.
pub(crate) fn are_apart(stand: &Stand) -> bool
    ensures { IsTrue result ↔ AllApart (list_of stand.now) }
{
    let others = match stand.first {
        Some((_, square)) => is_off(stand.last, square),
        None => true,
    };
    let off_white = is_off(stand.first, stand.white) & is_off(stand.last, stand.white);
    let off_black = is_off(stand.first, stand.black) & is_off(stand.last, stand.black);
    others & off_white & off_black & (stand.white != stand.black)
}

/// Whether the squares are neighbours, or one.
#[inline(always)]
pub(crate) fn are_near(one: Square, other: Square) -> bool
    ensures { IsTrue result ↔ AreNear one other }
{
    let files = one.file().abs_diff(other.file());
    let ranks = one.rank().abs_diff(other.rank());
    files <= 1 && ranks <= 1
}
