//! The two men beside the kings of a class, on their squares.
ghost use Rattle.std.specs.Prelude.{◌≡◌, ◌≢◌, ◌/◌, ◌<◌, ◌↔◌, ◌==◌, ℕ, IsTrue};
ghost use Rattle.egt_blocks.specs.Prelude.{bit_at, turned_side, king_of_men, men_on, with_king, men_across};
ghost use Rattle.egt_blocks.specs.Prelude.{turned_from, men_swapped};

use egt_board::{Side, Square, SquareSet};
use egt_index::ShelfMen;
use egt_index::turning::turned_square;

/// The men with the first one on the square.
pub fn men_on(men: &ShelfMen, on: Square) -> ShelfMen
    ensures { result ≡ men_on men.now on }
{
    ShelfMen {
        white: men.white,
        black: men.black,
        first: men.first,
        on,
        last: men.last,
    }
}

/// The men beside the kings in the other order.
pub fn men_swapped(men: &ShelfMen) -> ShelfMen
    ensures { result ≡ men_swapped men.now }
{
    ShelfMen {
        white: men.white,
        black: men.black,
        first: men.last,
        on: men.on,
        last: men.first,
    }
}

/// The square of that side's king.
pub fn king_of_men(men: &ShelfMen, side: Side) -> Square
    ensures { result ≡ king_of_men men.now side }
{
    match side {
        Side::White => men.white,
        Side::Black => men.black,
    }
}

/// The men with that side's king on the square.
pub fn with_king(men: &ShelfMen, side: Side, to: Square) -> ShelfMen
    ensures { result ≡ with_king men.now side to }
{
    match side {
        Side::White => ShelfMen {
            white: to,
            black: men.black,
            first: men.first,
            on: men.on,
            last: men.last,
        },
        Side::Black => ShelfMen {
            white: men.white,
            black: to,
            first: men.first,
            on: men.on,
            last: men.last,
        },
    }
}

/// The squares of the kings.
#[inline(always)]
pub fn kings_of(men: &ShelfMen) -> SquareSet
    ensures { (u : ℕ) → (bit_at result.bits u ≡ 0) ↔ ((u ≢ men.now.white) × (u ≢ men.now.black)) }
{
    SquareSet::EMPTY.with(men.white).with(men.black)
}

/// The men where the turn takes them, the first of them from this square.
#[inline(always)]
pub fn turned_from(men: &ShelfMen, on: Square, turn: u8) -> ShelfMen
    requires { turn < 16 }
    ensures { result ≡ turned_from men.now on turn }
{
    ShelfMen {
        white: turned_square(turn, men.white),
        black: turned_square(turn, men.black),
        first: men.first,
        on: turned_square(turn, on),
        last: men.last,
    }
}

/// The men with colours exchanged.
pub fn men_across(men: &ShelfMen) -> ShelfMen
    ensures { result ≡ men_across men.now }
{
    ShelfMen {
        white: men.black,
        black: men.white,
        first: men.first,
        on: men.on,
        last: men.last,
    }
}

/// The side, or the other one where the turn exchanges colours.
pub fn side_after(side: Side, turn: u8) -> Side
    ensures { result ≡ turned_side (turn / 8 == 1) side }
{
    if turn / 8 == 1 { side.other() } else { side }
}

/// Whether the two men beside the kings are equal.
pub fn are_equal(men: &ShelfMen) -> bool
    ensures { IsTrue result ↔ (men.now.first ≡ men.now.last) }
{
    men.first == men.last
}
