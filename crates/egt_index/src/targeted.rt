//! Positions with a target that the last man makes with the men before him: the pawns stand side by side, on the rank
//! to which one of them has just advanced by two squares.
ghost use Rattle.std.specs.Prelude.{◌≡◌, ◌≢◌, ℕ, ◌<◌, ◌↔◌, ◌⊎◌, true, false, IsTrue, Some};
ghost use Rattle.egt_index.specs.Prelude.{bit_at, rank_of, Man, material_of, IsPrefixBefore, IsMade, IsNewDigit};
ghost use Rattle.egt_index.specs.Prelude.{taking_rank, PassesNothing, has_target};

use crate::prefix::Prefix;
use crate::spelling::{admitted, is_settled, stand_before, target_of, with_entry};
use crate::stand::{Stand, is_last_off, with_last};
use egt_board::{Man, Side, Square, SquareSet};
use egt_class::Class;

/// Whether the man beside the kings, before the last one, stands on the fourth rank or the fifth.
fn is_in_the_middle(stand: &Stand) -> bool
    ensures { result ≡ false → (one : Man) (s : ℕ) → stand.now.first ≡ Some (one, s) →
        (rank_of s ≢ 3) × (rank_of s ≢ 4) }
{
    match stand.first {
        Some((_, on)) => on.rank() == 3 || on.rank() == 4,
        None => false,
    }
}

/// Whether a settled position with a target may have these men before the last one, by their number: White's pawn has
/// advanced to the fourth rank, or may take one that advanced to the fifth.
pub(crate) fn may_pass(class: Class, number: u32) -> bool
    requires { has_target (material_of class) ≡ true }
    ensures { result ≡ false → PassesNothing class number }
{
    match stand_before(class, number) {
        Some(stand) => is_in_the_middle(&stand),
        None => false,
    }
}

/// Whether the last man, by his digit, makes a settled position with a target with the men of the prefix.
fn is_made(class: Class, prefix: &Prefix, man: Man, mover: Side, digit: u8) -> bool
    requires targets { has_target (material_of class) ≡ true }
    requires before { IsPrefixBefore class prefix.now man }
    requires digit { digit < 48 }
    ensures { IsTrue result ↔ IsMade true class prefix.now.stand man mover digit }
{
    let _number = class.number();
    let stand = with_last(&prefix.stand, Some((man, Square::at(digit + 8))));
    if !is_last_off(&stand) {
        return false;
    }
    let target = target_of(mover, true, &stand);
    let board = with_entry(prefix.board.copied(), stand.last);
    match admitted(board, mover, target, stand.white, stand.black) {
        Some(position) => is_settled(&position),
        None => false,
    }
}

/// The digits and this one, if it is there and the last man makes a position by it.
fn with_digit(
    digits: SquareSet,
    class: Class,
    prefix: &Prefix,
    man: Man,
    mover: Side,
    there: bool,
    digit: u8,
) -> SquareSet
    requires targets { has_target (material_of class) ≡ true }
    requires before { IsPrefixBefore class prefix.now man }
    requires digit { digit < 48 }
    ensures { (k : ℕ) → (bit_at result.bits k ≡ 1) ↔
        ((bit_at digits.bits k ≡ 1) ⊎ IsNewDigit class prefix.now.stand man mover there digit k) }
{
    if there && is_made(class, prefix, man, mover, digit) {
        digits.with(Square::at(digit))
    } else {
        digits
    }
}

/// The rank on which pawns stand side by side where that side may take one that has just advanced.
fn taking_rank(mover: Side) -> u8
    ensures { result ≡ taking_rank mover }
{
    match mover {
        Side::White => 4,
        Side::Black => 3,
    }
}

/// The last man's digits, as bits, where he makes a settled position with a target and that side to move: he stands
/// beside the other pawn, which is there.
pub(crate) fn targeted_digits(
    class: Class,
    prefix: &Prefix,
    man: Man,
    on: Square,
    mover: Side,
) -> u64
    requires targets { has_target (material_of class) ≡ true }
    requires before { IsPrefixBefore class prefix.now man }
    requires first { (one : Man) × (prefix.now.stand.first ≡ Some (one, on)) }
    ensures { (k : ℕ) → (bit_at result k ≡ 1) ↔ IsMade true class prefix.now.stand man mover k }
{
    let _number = class.number();
    if on.rank() != taking_rank(mover) {
        return 0;
    }
    let (file, digit) = (on.file(), on.number() - 8);
    let west = with_digit(
        SquareSet::EMPTY,
        class,
        prefix,
        man,
        mover,
        file > 0,
        digit - 1,
    );
    with_digit(west, class, prefix, man, mover, file < 7, digit + 1).bits
}
