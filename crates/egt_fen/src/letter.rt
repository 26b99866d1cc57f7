//! The letters of the men.
ghost use Rattle.std.specs.Prelude.{◌≡◌};
ghost use Rattle.egt_fen.specs.Prelude.{man_of, letter_of};

use egt_board::{Kind, Man, Side};

/// The man of a letter, White's in capitals.
pub fn man_of(letter: u8) -> Option<Man>
    ensures { result ≡ man_of letter }
{
    let (side, kind) = match letter {
        b'Q' => (Side::White, Kind::Q),
        b'R' => (Side::White, Kind::R),
        b'B' => (Side::White, Kind::B),
        b'N' => (Side::White, Kind::N),
        b'P' => (Side::White, Kind::P),
        b'K' => (Side::White, Kind::K),
        b'q' => (Side::Black, Kind::Q),
        b'r' => (Side::Black, Kind::R),
        b'b' => (Side::Black, Kind::B),
        b'n' => (Side::Black, Kind::N),
        b'p' => (Side::Black, Kind::P),
        b'k' => (Side::Black, Kind::K),
        _ => return None,
    };
    Some(Man { side, kind })
}

/// The letter of a man.
pub fn letter_of(man: Man) -> u8
    ensures { result ≡ letter_of man }
{
    match (man.side, man.kind) {
        (Side::White, Kind::Q) => b'Q',
        (Side::White, Kind::R) => b'R',
        (Side::White, Kind::B) => b'B',
        (Side::White, Kind::N) => b'N',
        (Side::White, Kind::P) => b'P',
        (Side::White, Kind::K) => b'K',
        (Side::Black, Kind::Q) => b'q',
        (Side::Black, Kind::R) => b'r',
        (Side::Black, Kind::B) => b'b',
        (Side::Black, Kind::N) => b'n',
        (Side::Black, Kind::P) => b'p',
        (Side::Black, Kind::K) => b'k',
    }
}
