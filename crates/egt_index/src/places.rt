//! Which numbers of a shelf stand for positions' indexes, told of all of them at once by sets of squares. KRK with the
//! kings on b1 and e5: with Black to move each of the rook's 62 squares is one; with White to move the 14 on the king's
//! file and rank are not, since he would be in check, and 48 are.
ghost use Rattle.std.specs.Prelude.{◌≡◌, ℕ, ◌+◌, ◌<◌, ◌↔◌, true, false, Some, IfSome};
ghost use Rattle.egt_index.specs.Prelude.{bit_at, Stands, IsKeptFrom, Has, Man, material_of, IsPrefix, IsPrefixOf};
ghost use Rattle.egt_index.specs.Prelude.{code_of, AreInOrder, AreMade, IsPrefixBefore, IsPlaced, TellsIndex, waiting};
ghost use Rattle.egt_index.specs.Prelude.{kind_digits, kind_less, AreIndexes, IsShelfBehind, IsWithin, has_target};
ghost use Rattle.egt_index.specs.Prelude.{size_of, IsInOrder};

use crate::decoding::position;
use crate::digits::digit;
use crate::facts::facts;
use crate::men::non_kings;
use crate::numbers::{code_of, prefix_number};
use crate::prefix::{Prefix, prefix_of};
use crate::shelf::last_digits;
use crate::stand::Stand;
use crate::targeted::{may_pass, targeted_digits};
use egt_board::attack_lines::reach_past;
use egt_board::safety::reach_passes_over_its_end;
use egt_board::{Board, Kind, Man, Side, Square, SquareSet};
use egt_class::Class;

/// Some places of a shelf, by the side to move: bit `k` is of the last man's digit `k`.
#[derive(Clone, Copy, PartialEq, Eq, Debug, Default)]
pub struct Places {
    /// With White to move.
    pub white: u64,
    /// With Black to move.
    pub black: u64,
}

/// The squares on which the man, come to the board, leaves `to` unattacked by men of that side, which may be his.
fn kept_from(board: &Board, man: Man, to: Square, side: Side) -> SquareSet
    ensures { (t : ℕ) → t < 64 → Has result t ↔ IsKeptFrom board.now t man to side }
{
    let sheltered = board.shelter(to, side);
    if man.side != side {
        return sheltered;
    }
    reach_passes_over_its_end();
    let _number = to.number();
    let occupied = board.occupied();
    let attacking = reach_past(man.facing(), to, occupied);
    sheltered.difference(attacking)
}

/// The digits of the man on these squares, as bits.
fn digits_on(man: Man, squares: SquareSet) -> u64
    ensures { (k : ℕ) → (bit_at result k ≡ 1) ↔ ((k < kind_digits man.kind) × Has squares (k + kind_less man.kind)) }
{
    match man.kind {
        Kind::P => (squares.bits >> 8) & 0xFFFF_FFFF_FFFF,
        _ => squares.bits,
    }
}

/// The square of the king of the side that waits.
fn waiting(mover: Side, stand: &Stand) -> Square
    ensures { result ≡ waiting mover stand.now }
{
    match mover {
        Side::White => stand.black,
        Side::Black => stand.white,
    }
}

/// The digits of the last man, as bits, where he makes a position with the men of the prefix and that side to move.
pub(crate) fn places_of(prefix: &Prefix, man: Man, mover: Side) -> u64
    ensures bits { (k : ℕ) → (bit_at result k ≡ 1) ↔ IsPlaced prefix.now man mover k }
    ensures on_board { (s : ℕ) (other : Man) → Stands prefix.now.board s other → s < 64 }
{
    let king = waiting(mover, &prefix.stand);
    let kept = kept_from(&prefix.board, man, king, mover);
    let occupied = prefix.board.occupied();
    digits_on(man, kept.difference(occupied))
}

/// The last man's digits, as bits, by which two equal men are in order: the first stands on the lesser square.
fn digits_in_order(first: &Option<(Man, Square)>, man: Man) -> u64
    ensures { (k : ℕ) → k < 64 → (bit_at result k ≡ 1) ↔ IsInOrder first.now (Some (man, k + kind_less man.kind)) }
{
    match first {
        Some((other, square)) => {
            if *other == man {
                u64::MAX << digit(man, *square)
            } else {
                u64::MAX
            }
        }
        None => u64::MAX,
    }
}

/// The last man's places by which two equal men are in order: in the other order none has an index.
fn in_order(first: &Option<(Man, Square)>, man: Man, all: Places) -> Places
    ensures { AreInOrder first.now man all result }
{
    let digits = digits_in_order(first, man);
    Places {
        white: all.white & digits,
        black: all.black & digits,
    }
}

/// The last man's digits where he makes a position without a target with the men of the prefix.
fn plain_places(class: Class, prefix: &Prefix, man: Man) -> Places
    requires { IsPrefixBefore class prefix.now man }
    ensures { AreMade false class prefix.now.stand man result }
{
    let _number = class.number();
    Places {
        white: places_of(prefix, man, Side::White),
        black: places_of(prefix, man, Side::Black),
    }
}

/// The last man's digits where he makes a settled position with a target with the men of the prefix.
fn targeted_places(class: Class, prefix: &Prefix, man: Man) -> Places
    requires targets { has_target (material_of class) ≡ true }
    requires before { IsPrefixBefore class prefix.now man }
    ensures { AreMade true class prefix.now.stand man result }
{
    let _number = class.number();
    let (_, on) = prefix.stand.first.unwrap();
    Places {
        white: targeted_digits(class, prefix, man, on, Side::White),
        black: targeted_digits(class, prefix, man, on, Side::Black),
    }
}

/// The last man's digits where he makes a settled position with the men of the prefix, with a target where one was
/// passed.
pub(crate) fn settled_places(class: Class, prefix: &Prefix, man: Man, targeted: bool) -> Places
    requires before { IsPrefixBefore class prefix.now man }
    requires targets { has_target (material_of class) ≡ false → targeted ≡ false }
    ensures { AreMade targeted class prefix.now.stand man result }
{
    if targeted {
        targeted_places(class, prefix, man)
    } else {
        plain_places(class, prefix, man)
    }
}

/// The indexes of the shelf behind the prefix, whose last man this is; `None` where each code is to be asked about
/// alone.
fn places_behind(class: Class, prefix: &Prefix, man: Man, targeted: bool) -> Option<Places>
    requires before { IsPrefixBefore class prefix.now man }
    requires targets { has_target (material_of class) ≡ false → targeted ≡ false }
    ensures { IfSome result (λ found. (shelf high : ℕ) → IsPrefix class high prefix.now →
        IsShelfBehind targeted class shelf high → AreIndexes class shelf found) }
{
    facts();
    let _number = class.number();
    if prefix.tied {
        return None;
    }
    let all = settled_places(class, prefix, man, targeted);
    Some(in_order(&prefix.stand.first, man, all))
}

/// The indexes of the shelf behind the prefix with this number, where that and the class tell all of them; there is no
/// prefix only where all are void.
fn places_by_prefix(
    class: Class,
    number: u32,
    targeted: bool,
    prefix: &Option<Prefix>,
) -> Option<Places>
    requires prefix { IsPrefixOf class number prefix.now }
    requires targets { has_target (material_of class) ≡ false → targeted ≡ false }
    ensures { IfSome result (λ found. (shelf : ℕ) → IsShelfBehind targeted class shelf number →
        AreIndexes class shelf found) }
{
    let _number = class.number();
    let (_, last) = non_kings(class);
    let man = last?;
    match prefix {
        Some(prefix) => places_behind(class, prefix, man, targeted),
        None => Some(Places::default()),
    }
}

/// Whether the number stands for a position's index.
fn is_index(class: Class, number: u32) -> bool
    requires { number < size_of class }
    ensures { TellsIndex result class (code_of class number) }
{
    position(class, code_of(class, number)).is_some()
}

/// The indexes of the shelf, each code asked about alone.
fn asked(class: Class, shelf: u32) -> Places
    requires { IsWithin class shelf }
    ensures { AreIndexes class shelf result }
{
    let _number = class.number();
    let digits = last_digits(class);
    let first = shelf * (2 * digits);
    let mut white = SquareSet::EMPTY;
    let mut black = SquareSet::EMPTY;
    for digit in 0..digits {
        let number = first + 2 * digit;
        let is_white = is_index(class, number);
        let is_black = is_index(class, number + 1);
        let bit = Square::at(digit as u8);
        white = white.set(bit, is_white);
        black = black.set(bit, is_black);
    }
    Places {
        white: white.bits,
        black: black.bits,
    }
}

/// Which numbers of the shelf stand for positions' indexes: bit `k` is of the number with the last man's digit `k`.
pub fn indexes_of(class: Class, shelf: u32) -> Places
    requires { IsWithin class shelf }
    ensures { AreIndexes class shelf result }
{
    facts();
    let _number = class.number();
    let (number, targeted) = prefix_number(class, shelf).unwrap();
    if targeted && !may_pass(class, number) {
        return Places::default();
    }
    let prefix = prefix_of(class, number);
    match places_by_prefix(class, number, targeted, &prefix) {
        Some(places) => places,
        None => asked(class, shelf),
    }
}
