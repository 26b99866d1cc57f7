//! The men that the digits of a code spell, and the position of a code that is known to be an index.
ghost use Rattle.std.specs.Prelude.{◌≡◌, ◌≢◌, ◌*◌, ◌/◌, ◌∷◌, [], ◌<◌, ◌≤◌, ◌↔◌, Option, Bool, true, false, IsTrue};
ghost use Rattle.std.specs.Prelude.{IfSome, IfNone, None};
ghost use Rattle.egt_index.specs.Prelude.{IsSome, king_of, men_of, PawnsFit, IsFree, IsSettled, Setup, IsAdmissible};
ghost use Rattle.egt_index.specs.Prelude.{IsKingOn, White, Black, material_of, Spells, king_square, TellsLast};
ghost use Rattle.egt_index.specs.Prelude.{IsBefore, IsNoneBefore, IsIndex, IsVoid, king_base, has_pawns, has_target};
ghost use Rattle.egt_index.specs.Prelude.{option_to_list, Splits, Tells, SpellsMen, SpellsNoMen, Ends, HasPawns};
ghost use Rattle.egt_index.specs.Prelude.{IsTold, TellsMen, AllApart, IsFilled, list_of, with_entry};
ghost use Rattle.std.specs.FinMap as map;

use crate::digits::TRIANGLE_SQUARES;
use crate::facts::facts;
use crate::men::{has_pawns, has_target, non_kings};
use crate::stand::{Stand, with_last};
use egt_board::{Board, Kind, Man, Position, Side, Square};
use egt_class::Class;

const WHITE_KING: Man = Man {
    side: Side::White,
    kind: Kind::K,
};

const BLACK_KING: Man = Man {
    side: Side::Black,
    kind: Kind::K,
};

/// Takes the lowest digit, that of a man other than the white king, off the number.
fn split(number: u32, man: Man) -> (u32, Square)
    requires { man ≢ king_of White }
    ensures { Splits number man result.0 result.1 }
{
    match man.kind {
        Kind::P => (number / 48, Square::at((number % 48) as u8 + 8)),
        _ => (number / 64, Square::at((number % 64) as u8)),
    }
}

/// The square of the white king's digit; `None` from the digit's base on.
fn king_on(pawns: bool, digit: u32) -> Option<Square>
    ensures found { IfSome result (λ square. square ≡ king_square pawns digit) }
    ensures below { IfSome result (λ _. digit < king_base pawns) }
    ensures none { IfNone result (king_base pawns ≤ digit) }
{
    if pawns {
        if digit < 32 {
            let digit = digit as u8;
            Some(Square::at(8 * (digit / 4) + digit % 4))
        } else {
            None
        }
    } else if digit < 10 {
        Some(Square::at(TRIANGLE_SQUARES[digit as usize]))
    } else {
        None
    }
}

/// Takes the digit of a man, if there is one, off the number.
fn take(number: u32, man: Option<Man>) -> (u32, Option<(Man, Square)>)
    requires { IfSome man (λ man. man ≢ king_of White) }
    ensures tells { (pawns : Bool) → Tells pawns number (option_to_list man) result.0 (option_to_list result.1) }
    ensures none { result.1 ≡ None ↔ man ≡ None }
{
    match man {
        Some(man) => {
            let (high, square) = split(number, man);
            (high, Some((man, square)))
        }
        None => (number, None),
    }
}

/// Takes the digit of the last man of the class off the number: none is last where fewer than two men stand beside the
/// kings.
fn take_last(class: Class, number: u32) -> (u32, Option<(Man, Square)>)
    ensures { TellsLast class number result.0 result.1 }
{
    let (_, last) = non_kings(class);
    take(number, last)
}

/// Where the men of the class before the last one stand, whose digits are the number, if it spells any.
#[inline(always)]
pub(crate) fn stand_before(class: Class, number: u32) -> Option<Stand>
    ensures some { IfSome result (IsBefore class number) }
    ensures none { IfNone result (IsNoneBefore class number) }
{
    let (first, _) = non_kings(class);
    let (before_next, next) = take(number, first);
    let (high, black) = split(before_next, BLACK_KING);
    let white = king_on(has_pawns(class), high)?;
    Some(Stand {
        white,
        black,
        first: next,
        last: None,
    })
}

/// Where the men of the class stand that the number spells, if it spells any.
pub(crate) fn stand_on(class: Class, number: u32) -> Option<Stand>
    ensures some { IfSome result (λ stand. SpellsMen (material_of class) number (list_of stand)) }
    ensures filled { IfSome result IsFilled }
    ensures none { IfNone result (SpellsNoMen (material_of class) number) }
{
    let (high, last) = take_last(class, number);
    let before = stand_before(class, high)?;
    Some(with_last(&before, last))
}

/// What stands before the digits of the side to move and the target, and what these are.
pub(crate) fn ends(class: Class, code: u32) -> (u32, Side, bool)
    ensures { Ends (material_of class) code result.0 result.1 result.2 }
{
    let (number, targeted) = if has_target(class) {
        (code / 2, code % 2 == 1)
    } else {
        (code, false)
    };
    let side = if number % 2 == 0 {
        Side::White
    } else {
        Side::Black
    };
    (number / 2, side, targeted)
}

/// The board with one man more, if there is one.
pub(crate) fn with_entry(board: Board, entry: Option<(Man, Square)>) -> Board
    requires free { IfSome entry (λ e. IsFree board e.1) }
    requires room { map.len board < 4 }
    ensures { result ≡ with_entry board entry }
{
    match entry {
        Some(placed) => board.with_man(placed.1, placed.0),
        None => board,
    }
}

/// The board with the kings alone.
#[inline(always)]
fn kings_on(white: Square, black: Square) -> Board
    requires { white ≢ black }
    ensures { result ≡ men_of ((king_of White, white) ∷ (king_of Black, black) ∷ []) }
{
    let board = with_entry(Board::new(), Some((WHITE_KING, white)));
    with_entry(board, Some((BLACK_KING, black)))
}

/// The board with the men on it.
#[inline(always)]
pub(crate) fn board_of(stand: &Stand) -> Board
    requires { AllApart (list_of stand.now) }
    ensures men { result ≡ men_of (list_of stand.now) }
    ensures few { map.len result ≤ 4 }
{
    let kings = kings_on(stand.white, stand.black);
    let board = with_entry(kings, stand.first);
    with_entry(board, stand.last)
}

/// The target, if there is one: the square that the pawn of the side that waits has passed.
pub(crate) fn target_of(side: Side, targeted: bool, stand: &Stand) -> Option<Square>
    requires { targeted ≡ true → HasPawns (list_of stand.now) }
    ensures { IsTold targeted side (list_of stand.now) result }
{
    if !targeted {
        return None;
    }
    let advanced = match side {
        Side::White => stand.last,
        Side::Black => stand.first,
    };
    let (_, square) = advanced?;
    Some(square.ahead(side))
}

/// The position with this board, on which these are the kings, that side to move and that target; `None` where the
/// rules of play do not admit it.
pub(crate) fn admitted(
    board: Board,
    side: Side,
    target: Option<Square>,
    white: Square,
    black: Square,
) -> Option<Position>
    requires few { map.len board ≤ 4 }
    requires pawns { PawnsFit board }
    requires white { IsKingOn board White white }
    requires black { IsKingOn board Black black }
    ensures setup { IfSome result (λ p. p ≡ record { men = board; side = side; target = target }) }
    ensures admits { IsSome result ↔ IsAdmissible (record { men = board; side = side; target = target }) }
{
    if let Some(square) = target {
        if !board.is_target(side, square) {
            return None;
        }
    }
    let waiting = match side {
        Side::White => black,
        Side::Black => white,
    };
    if board.is_in_check(waiting, side.other()) {
        return None;
    }
    let _occupied = board.occupied();
    Some(Position::with_kings(board, side, target, white, black))
}

/// Whether the position has no target, or one that a pawn stands ready to take.
pub(crate) fn is_settled(position: &Position) -> bool
    ensures { IsTrue result ↔ IsSettled position.now }
{
    position.target().is_none() || position.settle().target().is_some()
}

/// Where the men stand of the position that the code spells, the side to move, and whether there is a target.
fn spelled_stand(class: Class, code: u32) -> (Stand, Side, bool)
    requires { (p : Setup) × Spells class code p }
    ensures tells { TellsMen result.2 class code result.0 result.1 }
    ensures pawns { result.2 ≡ true → HasPawns (list_of result.0) }
{
    let _number = class.number();
    let (number, side, targeted) = ends(class, code);
    let stand = stand_on(class, number).unwrap();
    (stand, side, targeted)
}

/// The position that the code spells, where the caller knows that it spells one.
pub fn spelled_position(class: Class, code: u32) -> Position
    requires { (p : Setup) × Spells class code p }
    ensures { Spells class code result }
{
    let _number = class.number();
    let (stand, side, targeted) = spelled_stand(class, code);
    let target = target_of(side, targeted, &stand);
    let board = board_of(&stand);
    Position::with_kings(board, side, target, stand.white, stand.black)
}

/// The settled position whose index this is: what `position` answers, where the caller knows that there is one, so that
/// no test is needed.
pub fn position_of(class: Class, index: u32) -> Position
    requires { ¬ IsVoid class index }
    ensures spells { Spells class index result }
    ensures settled { IsSettled result }
    ensures index { IsIndex class result index }
{
    facts();
    let _number = class.number();
    spelled_position(class, index)
}
