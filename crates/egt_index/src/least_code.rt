//! Whether codes are the least of all images of the positions that they spell, as the kings and the first man tell:
//! their digits are the highest.
ghost use Rattle.std.specs.Prelude.{◌≡◌, ◌⊎◌, ◌+◌, ◌*◌, ◌<◌, true, false, if◌then◌else◌, IfSome};
ghost use Rattle.egt_index.specs.Prelude.{has_equal_sides, AllSpelled, HasPrefix, HasKingsOn, IfMoved, IsBeaten};
ghost use Rattle.egt_index.specs.Prelude.{IsFirstOfTwo, KeepsWith, TurnBeats, TurnKeeps, IsIndex, IsInOrder, Stand};
ghost use Rattle.egt_index.specs.declared.least_code.Minimality.TheVariants.{Beaten, Least, Tied};

use crate::facts::facts;
use crate::home::{home, still_home};
use crate::men::{has_equal_sides, has_pawns};
use crate::turning::turned_square;
use crate::void_by_kings::{kings_after, pair};
use egt_board::{Man, Square};
use egt_class::Class;

/// What images tell of all codes that spell a position with the kings, and the first man where he is known, on the same
/// squares.
#[derive(Clone, Copy)]
pub(crate) enum Minimality {
    /// Some image has a lesser code.
    Beaten,
    /// No image has one.
    Least,
    /// Images have them on the same squares: each code is to be asked about alone.
    Tied,
}

/// The squares of White's king and of Black's, where the men stand in colours exchanged or not.
fn kings(white: Square, black: Square, flips: bool) -> u16
    ensures { result ≡ (if flips then 64 * black + white else 64 * white + black) }
{
    if flips {
        pair(black, white)
    } else {
        pair(white, black)
    }
}

/// What two images tell together.
fn both(one: Minimality, other: Minimality) -> Minimality
    ensures beaten { result ≡ Beaten → (one ≡ Beaten) ⊎ (other ≡ Beaten) }
    ensures least { result ≡ Least → (one ≡ Least) × (other ≡ Least) }
    ensures tied { result ≡ Tied → (one ≡ Tied) ⊎ (other ≡ Tied) }
{
    match one {
        Minimality::Beaten => Minimality::Beaten,
        Minimality::Least => other,
        Minimality::Tied => match other {
            Minimality::Beaten => Minimality::Beaten,
            _ => Minimality::Tied,
        },
    }
}

/// What the image tells that has the kings on the same squares: in the same colours another square of the first man
/// decides.
fn minimality_by_first(first: Option<(Man, Square)>, turn: u8) -> Minimality
    requires { turn < 16 }
    ensures beaten { result ≡ Beaten → IfMoved first turn (λ before after. after < before) }
    ensures least { result ≡ Least → IfMoved first turn (λ before after. before < after) }
{
    let Some((_, square)) = first else {
        return Minimality::Tied;
    };
    let before = square.number();
    let after = turned_square(turn, square).number();
    if 8 <= turn || after == before {
        Minimality::Tied
    } else if after < before {
        Minimality::Beaten
    } else {
        Minimality::Least
    }
}

/// What the image tells that the turn, which brings a king home, makes of a settled position: other squares of the
/// kings decide, and then another square of the first man, where he is known.
fn minimality_after(
    class: Class,
    white: Square,
    black: Square,
    first: Option<(Man, Square)>,
    turn: u8,
) -> Minimality
    requires turn { turn < 16 }
    requires first { IfSome first (λ e. IsFirstOfTwo class e.0) }
    ensures beats { result ≡ Beaten → (stand : Stand) → HasPrefix white black first stand → TurnBeats class stand turn }
    ensures keeps { result ≡ Least → (stand : Stand) → HasPrefix white black first stand → TurnKeeps class stand turn }
{
    facts();
    let _number = class.number();
    let own = kings(white, black, turn / 8 == 1);
    let image = kings_after(white, black, turn);
    if image < own {
        return Minimality::Beaten;
    }
    if own < image {
        return Minimality::Least;
    }
    minimality_by_first(first, turn)
}

/// What the images in the same colours tell, where equal men stand in order.
fn minimality_straight(
    class: Class,
    white: Square,
    black: Square,
    first: Option<(Man, Square)>,
) -> Minimality
    requires { IfSome first (λ e. IsFirstOfTwo class e.0) }
    ensures beats { result ≡ Beaten → (stand : Stand) → HasPrefix white black first stand →
        AllSpelled class stand (IsBeaten class) }
    ensures keeps { result ≡ Least → (stand : Stand) → HasPrefix white black first stand →
        IsInOrder stand.first stand.last → AllSpelled class stand (λ p code. KeepsWith class p false code) }
{
    facts();
    let _number = class.number();
    match still_home(has_pawns(class), white) {
        Some(turn) => minimality_after(class, white, black, first, turn),
        None => Minimality::Least,
    }
}

/// What the images in exchanged colours tell, of a class whose sides have the same men.
fn minimality_exchanged(class: Class, white: Square, black: Square) -> Minimality
    requires { has_equal_sides class ≡ true }
    ensures beats { result ≡ Beaten → (stand : Stand) → HasKingsOn white black stand →
        AllSpelled class stand (IsBeaten class) }
    ensures keeps { result ≡ Least → (stand : Stand) → HasKingsOn white black stand →
        AllSpelled class stand (λ p code. KeepsWith class p true code) }
{
    facts();
    let _number = class.number();
    let (first, second) = home(has_pawns(class), true, black);
    let one = minimality_after(class, black, white, None, first);
    match second {
        Some(second) => both(one, minimality_after(class, black, white, None, second)),
        None => one,
    }
}

/// What the images tell of the codes that spell settled positions with the kings on these squares, and the first man on
/// his where he is known, where equal men stand in order.
pub(crate) fn minimality_in_order(
    class: Class,
    white: Square,
    black: Square,
    first: Option<(Man, Square)>,
) -> Minimality
    requires { IfSome first (λ e. IsFirstOfTwo class e.0) }
    ensures beaten { result ≡ Beaten → (stand : Stand) → HasPrefix white black first stand →
        AllSpelled class stand (λ p code. ¬ IsIndex class p code) }
    ensures least { result ≡ Least → (stand : Stand) → HasPrefix white black first stand →
        IsInOrder stand.first stand.last → AllSpelled class stand (IsIndex class) }
{
    facts();
    let _number = class.number();
    let straight = minimality_straight(class, white, black, first);
    if has_equal_sides(class) {
        both(straight, minimality_exchanged(class, white, black))
    } else {
        straight
    }
}
