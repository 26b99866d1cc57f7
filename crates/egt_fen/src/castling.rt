//! The castling field.
ghost use Rattle.std.specs.Prelude.{◌≡◌};
ghost use Rattle.egt_fen.specs.Prelude.{castling_of};

/// Whether the field is `-`; `None` for any other field, as castling is left out.
pub fn castling_of(field: &[u8]) -> Option<()>
    ensures { result ≡ castling_of field.now }
{
    match field {
        [b'-'] => Some(()),
        _ => None,
    }
}
