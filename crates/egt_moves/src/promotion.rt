//! Promotion of a pawn on the last rank.
ghost use Rattle.std.specs.Prelude.{◌≡◌, ◌↔◌, IsTrue};
ghost use Rattle.egt_moves.specs.Prelude.{promotes, FitsPromotion, arriving, IsOfficer};

use egt_board::{Kind, Man, Square};

/// What a pawn may become, in the order of moves.
pub(crate) const OFFICERS: [Kind; 4] = [Kind::Q, Kind::R, Kind::B, Kind::N];

/// Whether the man is a pawn that arrives on its last rank.
pub(crate) fn promotes(man: Man, to: Square) -> bool
    ensures { result ≡ promotes man to }
{
    man.kind == Kind::P && to.rank() == man.side.last_rank()
}

/// Whether a pawn may become this.
fn is_officer(kind: Kind) -> bool
    ensures { IsTrue result ↔ IsOfficer kind }
{
    match kind {
        Kind::Q | Kind::R | Kind::B | Kind::N => true,
        Kind::P | Kind::K => false,
    }
}

/// Whether the move of the man promotes as it must: a pawn on its last rank to a queen, rook, bishop or knight,
/// and nothing else.
pub(crate) fn fits_promotion(man: Man, to: Square, promo: Option<Kind>) -> bool
    ensures { IsTrue result ↔ FitsPromotion (promotes man to) promo }
{
    match promo {
        Some(kind) => promotes(man, to) && is_officer(kind),
        None => !promotes(man, to),
    }
}

/// What stands on the square arrived at.
pub(crate) fn arriving(man: Man, promo: Option<Kind>) -> Man
    ensures { result ≡ arriving man promo }
{
    match promo {
        Some(kind) => Man {
            side: man.side,
            kind,
        },
        None => man,
    }
}
