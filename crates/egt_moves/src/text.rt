//! Moves as text, like `d1d8` and `g7g8q`.
ghost use Rattle.std.specs.Prelude.{◌≡◌, ◌+◌, ◌<◌, ◌≤◌, [], ◌∷◌, ◌++◌};
ghost use Rattle.egt_moves.specs.Prelude.{array_string_len, text_of, square_text, kind_letter};

use crate::chess_move::Move;
use arrayvec::ArrayString;
use egt_board::{Kind, Square};

/// Appends an ASCII character.
fn push_letter(text: &mut ArrayString<5>, letter: u8)
    requires ascii { letter < 128 }
    requires room { array_string_len text.old < 5 }
    ensures bytes { text.new.bytes ≡ text.old.bytes ++ letter ∷ [] }
    ensures len { array_string_len text.new ≡ array_string_len text.old + 1 }
{
    text.push(char::from(letter));
}

/// Appends a square, as `e4`.
fn push_square(text: &mut ArrayString<5>, square: Square)
    requires { array_string_len text.old ≤ 3 }
    ensures bytes { text.new.bytes ≡ text.old.bytes ++ square_text square }
    ensures len { array_string_len text.new ≡ array_string_len text.old + 2 }
{
    push_letter(text, b'a' + square.file());
    push_letter(text, b'1' + square.rank());
}

/// The small letter of a kind.
fn letter(kind: Kind) -> u8
    ensures letter { result ≡ kind_letter kind }
    ensures ascii { result < 128 }
{
    match kind {
        Kind::Q => b'q',
        Kind::R => b'r',
        Kind::B => b'b',
        Kind::N => b'n',
        Kind::P => b'p',
        Kind::K => b'k',
    }
}

impl Move {
    /// The two squares and, for a promotion, one small letter: `d1d8`, `g7g8q`.
    pub fn text(&self) -> ArrayString<5>
        ensures { result.bytes ≡ text_of self.now }
    {
        let mut text = ArrayString::new();
        push_square(&mut text, self.from);
        push_square(&mut text, self.to);
        if let Some(kind) = self.promo {
            push_letter(&mut text, letter(kind));
        }
        text
    }
}
