//! Positions by their men, as C gives them.
ghost use Rattle.std.specs.Prelude.{◌≡◌, ◌≤◌, IfOk, IfErr, length, option_map};
ghost use Rattle.egt_c.specs.Men.{kind_of, side_of, target_of, man_of, men_of, IsOfMen, IsMenFault};

use crate::fault::EgtbFault;
use arrayvec::ArrayVec;
use egt_board::{Kind, Man, PosFault, Position, Side, Square};

/// A man on a square.
#[repr(C)]
#[derive(Clone, Copy, Debug, PartialEq, Eq)]
pub struct EgtbMan {
    /// 0 (a1) to 63 (h8): 8 * rank + file, both from 0.
    pub square: u8,
    /// 0 White, 1 Black.
    pub side: u8,
    /// 1 pawn, 2 knight, 3 bishop, 4 rook, 5 queen, 6 king.
    pub kind: u8,
}

/// A position: the first `count` of these men, the side to move, and the square that a pawn has just passed, or 64.
#[repr(C)]
#[derive(Clone, Copy, Debug, PartialEq, Eq)]
pub struct EgtbPosition {
    pub count: u8,
    pub men: [EgtbMan; 4],
    pub side: u8,
    pub target: u8,
}

/// The side of that number.
fn side_of(number: u8) -> Option<Side>
    ensures { result ≡ side_of number }
{
    match number {
        0 => Some(Side::White),
        1 => Some(Side::Black),
        _ => None,
    }
}

/// The kind of that number.
fn kind_of(number: u8) -> Option<Kind>
    ensures { result ≡ kind_of number }
{
    match number {
        1 => Some(Kind::P),
        2 => Some(Kind::N),
        3 => Some(Kind::B),
        4 => Some(Kind::R),
        5 => Some(Kind::Q),
        6 => Some(Kind::K),
        _ => None,
    }
}

/// The target of that number.
fn target_of(number: u8) -> Option<Option<Square>>
    ensures { result ≡ target_of number }
{
    if number == 64 {
        return Some(None);
    }
    match Square::new(number) {
        Some(square) => Some(Some(square)),
        None => None,
    }
}

/// The man and his square.
fn man_of(man: &EgtbMan) -> Option<(Man, Square)>
    ensures { result ≡ man_of man.now }
{
    let Some(square) = Square::new(man.square) else {
        return None;
    };
    let Some(side) = side_of(man.side) else {
        return None;
    };
    let Some(kind) = kind_of(man.kind) else {
        return None;
    };
    Some((Man { side, kind }, square))
}

/// The men and their squares.
fn men_of(men: &[EgtbMan]) -> Option<ArrayVec<(Man, Square), 4>>
    requires { length men.now ≤ 4 }
    ensures { option_map (λ told. told.items) result ≡ men_of men.now }
{
    let mut told = ArrayVec::new();
    for man in men {
        match man_of(man) {
            Some(entry) => told.push(entry),
            None => return None,
        }
    }
    Some(told)
}

/// The position that the struct tells of.
pub(crate) fn position_of(given: &EgtbPosition) -> Result<Position, EgtbFault>
    ensures position { IfOk result (λ p. IsOfMen given.now p) }
    ensures fault { IfErr result (λ fault. IsMenFault given.now fault) }
{
    if given.count > 4 {
        return Err(EgtbFault::of_setup(PosFault::MenCount));
    }
    let Some(men) = men_of(&given.men[..usize::from(given.count)]) else {
        return Err(EgtbFault::no_man());
    };
    let Some(side) = side_of(given.side) else {
        return Err(EgtbFault::no_man());
    };
    let Some(target) = target_of(given.target) else {
        return Err(EgtbFault::no_man());
    };
    match Position::new(men.as_slice(), side, target) {
        Ok(position) => Ok(position),
        Err(fault) => Err(EgtbFault::of_setup(fault)),
    }
}
