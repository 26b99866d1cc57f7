//! The side to move.
ghost use Rattle.std.specs.Prelude.{◌≡◌};
ghost use Rattle.egt_fen.specs.Prelude.{side_of};

use egt_board::Side;

/// The side of the letter `w` or `b`; `None` for any other field.
pub fn side_of(field: &[u8]) -> Option<Side>
    ensures { result ≡ side_of field.now }
{
    match field {
        [b'w'] => Some(Side::White),
        [b'b'] => Some(Side::Black),
        _ => None,
    }
}
