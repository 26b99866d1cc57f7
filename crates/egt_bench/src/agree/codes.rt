//! Positions that codes spell (`docs/CLASSES.md`): digits are taken off one by one, and each image of the position is
//! tried for a lesser code.
use crate::agree::setup::Setup;
use crate::agree::unmoves::is_settled_position;
use arrayvec::ArrayVec;
use egt_board::{Kind, Man, Position, Side, Square};
use egt_class::{Class, name, of};
use egt_index::{index, position};

/// The squares of the white king's digit where there are no pawns.
const TRIANGLE: [u8; 10] = [0, 1, 2, 3, 9, 10, 11, 18, 19, 27];

/// What a code spells, by the product and plainly.
#[derive(Drop)]
pub enum Spelled {
    /// Nothing, by both.
    Nothing,
    /// This position, by both.
    Position(Position),
    /// Not the same by both.
    Otherwise,
}

/// What a class's codes are made of: its men in the order of the digits, and whether there are pawns, both sides have
/// the same men, and both have a pawn.
#[derive(Drop)]
struct Form {
    men: ArrayVec<Man, 4>,
    pawns: bool,
    equal: bool,
    passing: bool,
}

/// Men on squares, the side to move, and whether there is a target.
#[derive(Drop)]
struct Placed {
    men: ArrayVec<(Man, u8), 4>,
    side: Side,
    targeted: bool,
}

/// The kind of a man beside the kings by its letter.
fn kind(letter: u8) -> Option<Kind> {
    match letter {
        b'Q' => Some(Kind::Q),
        b'R' => Some(Kind::R),
        b'B' => Some(Kind::B),
        b'N' => Some(Kind::N),
        b'P' => Some(Kind::P),
        _ => None,
    }
}

fn man(side: Side, kind: Kind) -> Man {
    Man { side, kind }
}

/// The kings, and then the other men by the letters of the name: White's up to the second king.
fn men_of(letters: &[u8]) -> ArrayVec<Man, 4> {
    let mut men = ArrayVec::new();
    let _ = men.try_push(man(Side::White, Kind::K));
    let _ = men.try_push(man(Side::Black, Kind::K));
    let mut side = Side::Black;
    for letter in letters {
        match kind(*letter) {
            Some(kind) => {
                let _ = men.try_push(man(side, kind));
            }
            None => side = side.other(),
        }
    }
    men
}

fn form_of(class: Class) -> Form {
    let name = name(class);
    let letters = name.as_str().as_bytes();
    let (front, behind) = letters.split_at(letters.len() / 2);
    let men = men_of(letters);
    let white = men.as_slice().contains(&man(Side::White, Kind::P));
    let black = men.as_slice().contains(&man(Side::Black, Kind::P));
    Form {
        men,
        pawns: white || black,
        equal: front == behind,
        passing: white && black,
    }
}

/// A digit of this base, taken off the number's end.
fn taken_off(number: &mut u32, base: u32) -> u32 {
    let digit = number.checked_rem(base).unwrap_or(0);
    *number = number.checked_div(base).unwrap_or(0);
    digit
}

impl Form {
    /// The base of a man's digit.
    fn base(&self, man: Man) -> u32 {
        match man.kind {
            Kind::P => 48,
            Kind::K if man.side == Side::White && self.pawns => 32,
            Kind::K if man.side == Side::White => 10,
            _ => 64,
        }
    }

    /// The square of a man's digit.
    fn square(&self, man: Man, digit: u32) -> Option<u8> {
        let digit = u8::try_from(digit).ok()?;
        match man.kind {
            Kind::P => digit.checked_add(8),
            Kind::K if man.side == Side::White && self.pawns => digit.checked_add(digit / 4 * 4),
            Kind::K if man.side == Side::White => TRIANGLE.get(usize::from(digit)).copied(),
            _ => Some(digit),
        }
    }

    /// The digit of a man on a square, where he has one there.
    fn digit(&self, man: Man, square: u8) -> Option<u32> {
        match man.kind {
            Kind::P => Some(u32::from(square.checked_sub(8)?)),
            Kind::K if man.side == Side::White && self.pawns => {
                if square % 8 < 4 {
                    Some(u32::from(square / 8 * 4 + square % 8))
                } else {
                    None
                }
            }
            Kind::K if man.side == Side::White => {
                let place = TRIANGLE.iter().position(|other| *other == square)?;
                Some(place as u32)
            }
            _ => Some(u32::from(square)),
        }
    }

    /// The men that the code's digits put on squares, if it has no digits more.
    fn placed(&self, code: u32) -> Option<Placed> {
        let mut rest = code;
        let targeted = self.passing && taken_off(&mut rest, 2) == 1;
        let side = if taken_off(&mut rest, 2) == 0 {
            Side::White
        } else {
            Side::Black
        };
        let mut men = ArrayVec::new();
        for man in self.men.as_slice().iter().rev() {
            let digit = taken_off(&mut rest, self.base(*man));
            men.try_push((*man, self.square(*man, digit)?)).ok()?;
        }
        if rest == 0 {
            Some(Placed {
                men,
                side,
                targeted,
            })
        } else {
            None
        }
    }

    /// The code of what is placed, of equal men the first that is placed before or behind the other.
    fn code(&self, placed: &Placed, behind: bool) -> Option<u32> {
        let mut code = 0u32;
        let mut left = [true; 4];
        for man in self.men.as_slice() {
            let place = taken(placed.men.as_slice(), *man, behind, &mut left)?;
            let (_, square) = placed.men.as_slice().get(place)?;
            code = code
                .checked_mul(self.base(*man))?
                .checked_add(self.digit(*man, *square)?)?;
        }
        code = code
            .checked_mul(2)?
            .checked_add(u32::from(placed.side == Side::Black))?;
        if self.passing {
            code = code
                .checked_mul(2)?
                .checked_add(u32::from(placed.targeted))?;
        }
        Some(code)
    }

    /// Whether an image has a lesser code.
    fn is_beaten(&self, placed: &Placed, code: u32) -> bool {
        for turn in 0..16u8 {
            if (self.pawns && turn % 8 > 1) || (!self.equal && turn > 7) {
                continue;
            }
            let image = placed.turned(turn);
            for behind in [false, true] {
                if self.code(&image, behind).is_some_and(|other| other < code) {
                    return true;
                }
            }
        }
        false
    }
}

/// The place of the man among those that are left, the first or the last such, which is left no more.
fn taken(men: &[(Man, u8)], man: Man, last: bool, left: &mut [bool; 4]) -> Option<usize> {
    let mut found = None;
    for (place, (other, _)) in men.iter().enumerate() {
        if *other == man && left.get(place) == Some(&true) && (last || found.is_none()) {
            found = Some(place);
        }
    }
    if let Some(mark) = left.get_mut(found?) {
        *mark = false;
    }
    found
}

/// The square after a turn: mirrors of files, of ranks and of the long diagonal, and behind them an exchange of
/// colours, by its bits.
fn turned(square: u8, turn: u8) -> u8 {
    let (mut file, mut rank) = (square % 8, square / 8 % 8);
    if turn % 2 == 1 {
        file = 7 - file;
    }
    if turn / 2 % 2 == 1 {
        rank = 7 - rank;
    }
    if turn / 4 % 2 == 1 {
        (file, rank) = (rank, file);
    }
    if turn / 8 % 2 == 1 {
        rank = 7 - rank;
    }
    8 * rank + file
}

impl Placed {
    /// The men and the side as a turn leaves them.
    fn turned(&self, turn: u8) -> Placed {
        let exchanged = turn / 8 == 1;
        let side_of = |side: Side| if exchanged { side.other() } else { side };
        let mut men = ArrayVec::new();
        for (placed, square) in self.men.as_slice() {
            let turned = turned(*square, turn);
            let _ = men.try_push((man(side_of(placed.side), placed.kind), turned));
        }
        Placed {
            men,
            side: side_of(self.side),
            targeted: self.targeted,
        }
    }

    /// The square that the waiting side's pawn passed, if it advanced by two.
    fn target(&self) -> Option<u8> {
        let pawn = man(self.side.other(), Kind::P);
        for (man, square) in self.men.as_slice() {
            if self.targeted && *man == pawn {
                return match self.side {
                    Side::White => square.checked_add(8),
                    Side::Black => square.checked_sub(8),
                };
            }
        }
        None
    }

    /// The board with the men, where no two stand on one square.
    fn setup(&self) -> Option<Setup> {
        let mut setup = Setup::empty(self.side, self.target());
        for (man, square) in self.men.as_slice() {
            if setup.at(*square).is_some() {
                return None;
            }
            setup.put(*square, Some(*man));
        }
        Some(setup)
    }

    /// The position of the product, if it takes it for one.
    fn position(&self) -> Option<Position> {
        let mut men = ArrayVec::<(Man, Square), 4>::new();
        for (man, square) in self.men.as_slice() {
            men.try_push((*man, Square::new(*square)?)).ok()?;
        }
        let target = self.target().and_then(|square| Square::new(square));
        Position::new(men.as_slice(), self.side, target).ok()
    }

    /// Whether it is a position of the class, with this index.
    fn has_index(&self, class: Class, code: u32) -> bool {
        match self.position() {
            Some(position) => {
                let (own, _) = of(&position);
                own == class && index(own, &position) == code
            }
            None => false,
        }
    }
}

/// The position that the code spells, if it is the least code of a settled position's images.
fn spelled_plainly(class: Class, code: u32) -> Option<Setup> {
    let form = form_of(class);
    let placed = form.placed(code)?;
    let setup = placed.setup()?;
    if is_settled_position(&setup) && !form.is_beaten(&placed, code) {
        Some(setup)
    } else {
        None
    }
}

/// Whether the position is what is spelled plainly, and the code its index in the class.
fn is_alike(plain: Option<Setup>, class: Class, position: &Position, code: u32) -> bool {
    let Some(setup) = plain else {
        return false;
    };
    let (own, _) = of(position);
    setup.is_like(&Setup::of(position)) && own == class && index(own, position) == code
}

/// What the code of the class spells.
pub fn spelling(class: Class, code: u32) -> Spelled {
    let plain = spelled_plainly(class, code);
    let Some(position) = position(class, code) else {
        return if plain.is_none() {
            Spelled::Nothing
        } else {
            Spelled::Otherwise
        };
    };
    if is_alike(plain, class, &position, code) {
        Spelled::Position(position)
    } else {
        Spelled::Otherwise
    }
}

/// Whether the code is the index of all images of the position that it spells plainly, if it spells one.
pub fn images_agree(class: Class, code: u32) -> bool {
    match spelling(class, code) {
        Spelled::Nothing => return true,
        Spelled::Position(_) => {}
        Spelled::Otherwise => return false,
    }
    let form = form_of(class);
    let Some(placed) = form.placed(code) else {
        return false;
    };
    (0..16u8)
        .filter(|turn| !form.pawns || turn % 8 < 2)
        .all(|turn| placed.turned(turn).has_index(class, code))
}
