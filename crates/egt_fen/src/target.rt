//! The en passant target.
ghost use Rattle.std.specs.Prelude.{◌≡◌};
ghost use Rattle.egt_fen.specs.Prelude.{target_of};

use egt_board::Square;

/// The target of the field: none for `-`, or a square of the third or the sixth rank. `None` for any other field.
pub fn target_of(field: &[u8]) -> Option<Option<Square>>
    ensures { result ≡ target_of field.now }
{
    match field {
        [b'-'] => Some(None),
        [file @ b'a'..=b'h', rank @ (b'3' | b'6')] => {
            let square = Square::new(8 * (rank - b'1') + (file - b'a'));
            Some(square)
        }
        _ => None,
    }
}
