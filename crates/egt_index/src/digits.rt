//! The digits of men on their squares.
ghost use Rattle.std.specs.Prelude.{◌≡◌, ◌≢◌, ℕ, ◌-◌, ◌<◌, ◌≤◌, Bool, false, IfSome, IfNone};
ghost use Rattle.egt_index.specs.Prelude.{king_of, MayStand, White, king_square, square_of, kind_less, king_base};
ghost use Rattle.egt_index.specs.Prelude.{base_of};

use egt_board::{Kind, Man, Square};

/// The squares of the triangle a1 b1 c1 d1 b2 c2 d2 c3 d3 d4, by their places.
pub(crate) static TRIANGLE_SQUARES: [u8; 10] = [0, 1, 2, 3, 9, 10, 11, 18, 19, 27];

/// The square's place in the triangle, if it is there.
fn place(square: Square) -> Option<u8>
    ensures found { IfSome result (λ place. place < 10) }
    ensures is { IfSome result (λ place. king_square false place ≡ square) }
    ensures none { IfNone result ((place : ℕ) → place < 10 → king_square false place ≢ square) }
{
    for place in 0..10 {
        if TRIANGLE_SQUARES[place as usize] == square.number() {
            return Some(place);
        }
    }
    None
}

/// The white king's digit; `None` where his square has none. In a class with pawns it is his square among those of the
/// files a to d, else his place in the triangle.
pub(crate) fn king_digit(pawns: bool, king: Square) -> Option<u8>
    ensures found { IfSome result (λ digit. digit < king_base pawns) }
    ensures is { IfSome result (λ digit. king_square pawns digit ≡ king) }
    ensures none { IfNone result ((digit : ℕ) → digit < king_base pawns → king_square pawns digit ≢ king) }
{
    if !pawns {
        place(king)
    } else if king.file() < 4 {
        Some(4 * king.rank() + king.file())
    } else {
        None
    }
}

/// The base of the digit of a man other than the white king: how many squares it may stand on.
pub(crate) fn base(man: Man) -> u32
    ensures value { man ≢ king_of White → (pawns : Bool) → result ≡ base_of pawns man }
    ensures few { result ≤ 64 }
{
    match man.kind {
        Kind::P => 48,
        _ => 64,
    }
}

/// The digit of a man other than the white king; of a pawn on the first rank it means nothing.
pub(crate) fn digit(man: Man, square: Square) -> u8
    ensures below { man ≢ king_of White → MayStand man square → (pawns : Bool) → result < base_of pawns man }
    ensures few { result < 64 }
    ensures is { man ≢ king_of White → MayStand man square → (pawns : Bool) → square_of pawns man result ≡ square }
    ensures value { result ≡ square - kind_less man.kind }
{
    match man.kind {
        Kind::P => square.number().saturating_sub(8),
        _ => square.number(),
    }
}
