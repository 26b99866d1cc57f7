//! Squares, men and positions for the tests.
ghost use Rattle.std.specs.Prelude.{◌≡◌};

use arrayvec::ArrayVec;
use egt_board::{Kind, Man, Position, Side, Square};
use egt_moves::Move;

pub(crate) fn man(side: Side, kind: Kind) -> Man
    ensures { result.kind ≡ kind }
{
    Man { side, kind }
}

fn kind_of(letter: u8) -> Option<Kind> {
    match letter.to_ascii_uppercase() {
        b'Q' => Some(Kind::Q),
        b'R' => Some(Kind::R),
        b'B' => Some(Kind::B),
        b'N' => Some(Kind::N),
        b'P' => Some(Kind::P),
        b'K' => Some(Kind::K),
        _ => None,
    }
}

/// A square by its name, as `e4`.
pub(crate) fn square_of(word: &[u8]) -> Option<Square> {
    let [file, rank] = word else {
        return None;
    };
    let file = file.checked_sub(b'a')?;
    let rank = rank.checked_sub(b'1')?;
    if file < 8 && rank < 8 {
        Square::new(8 * rank + file)
    } else {
        None
    }
}

/// A man and its square, as `Ka6`, or `ka6` for Black's.
fn man_of(word: &[u8]) -> Option<(Man, Square)> {
    let [letter, file, rank] = word else {
        return None;
    };
    let side = if letter.is_ascii_uppercase() {
        Side::White
    } else {
        Side::Black
    };
    Some((man(side, kind_of(*letter)?), square_of(&[*file, *rank])?))
}

/// Men on their squares, the side to move and perhaps a target.
type Setup = (ArrayVec<(Man, Square), 4>, Side, Option<Square>);

/// What words as `Kh1 Pe4 kd5 pd4 b e3` say.
fn setup_of(words: &str) -> Option<Setup> {
    let mut men = ArrayVec::<(Man, Square), 4>::new();
    let mut side = Side::White;
    let mut target = None;
    for word in words.split(' ') {
        match word.as_bytes() {
            b"w" => side = Side::White,
            b"b" => side = Side::Black,
            [file, rank] => target = Some(square_of(&[*file, *rank])?),
            other => men.try_push(man_of(other)?).ok()?,
        }
    }
    Some((men, side, target))
}

/// The position of such words.
pub(crate) fn position_of(words: &str) -> Option<Position> {
    let (men, side, target) = setup_of(words)?;
    Position::new(men.as_slice(), side, target).ok()
}

/// The number of the fault that they have; 0 where they are a position.
pub(crate) fn fault_of(words: &str) -> Option<u8> {
    let (men, side, target) = setup_of(words)?;
    match Position::new(men.as_slice(), side, target) {
        Ok(_) => Some(0),
        Err(fault) => Some(fault.number()),
    }
}

/// A move by its text, as `c4b4` or `g7g8q`.
pub(crate) fn move_of(text: &[u8]) -> Option<Move> {
    match text {
        [a, b, c, d] => Some(Move {
            from: square_of(&[*a, *b])?,
            to: square_of(&[*c, *d])?,
            promo: None,
        }),
        [a, b, c, d, letter] => Some(Move {
            from: square_of(&[*a, *b])?,
            to: square_of(&[*c, *d])?,
            promo: Some(kind_of(*letter)?),
        }),
        _ => None,
    }
}

/// Whether both are the same position.
pub(crate) fn same(position: &Position, other: &Position) -> bool {
    position.men().as_slice() == other.men().as_slice()
        && position.side() == other.side()
        && position.target() == other.target()
}
