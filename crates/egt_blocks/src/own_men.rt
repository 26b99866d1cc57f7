//! Men by their side and kind, and where they may stand.
ghost use Rattle.std.specs.Prelude.{◌≡◌, ◌↔◌, ◌⊎◌, IsTrue, false, true};
ghost use Rattle.egt_blocks.specs.Prelude.{K, P, IsPiece, MayStand, pawn_of, turned_man, is_pawn};

use egt_board::{Kind, Man, Mirror, Side, Square};

/// Whether the man is of that side.
#[inline(always)]
pub fn is_of(man: Man, side: Side) -> bool
    ensures { IsTrue result ↔ (man.side ≡ side) }
{
    man.side == side
}

/// Whether the man is a pawn.
pub fn is_pawn(man: Man) -> bool
    ensures { result ≡ is_pawn man.kind }
{
    match man.kind {
        Kind::P => true,
        _ => false,
    }
}

/// Neither a pawn nor a king.
#[inline(always)]
pub fn is_piece(man: Man) -> bool
    ensures yes { result ≡ true → IsPiece man.kind }
    ensures no { result ≡ false → (man.kind ≡ P) ⊎ (man.kind ≡ K) }
{
    matches!(man.kind, Kind::Q | Kind::R | Kind::B | Kind::N)
}

/// Whether the man is a piece of that side.
#[inline(always)]
pub fn is_own_piece(man: Man, side: Side) -> bool
    ensures yes { result ≡ true → (man.side ≡ side) × IsPiece man.kind }
    ensures no { result ≡ false → man.side ≡ side → (man.kind ≡ P) ⊎ (man.kind ≡ K) }
{
    is_of(man, side) && is_piece(man)
}

/// The man, of the other side where colours are exchanged.
pub fn turned_man(man: Man, flips: bool) -> Man
    ensures { result ≡ turned_man flips man }
{
    if flips { Mirror::Colours.man(man) } else { man }
}

/// Whether the man is a pawn of that side.
pub fn is_pawn_of(man: Man, side: Side) -> bool
    ensures { IsTrue result ↔ (man ≡ pawn_of side) }
{
    man == side.pawn()
}

/// Whether the man may stand on the square: a pawn on neither the first rank nor the last.
pub fn may_stand(man: Man, square: Square) -> bool
    ensures { IsTrue result ↔ MayStand man square }
{
    man.kind != Kind::P || (0 < square.rank() && square.rank() < 7)
}
