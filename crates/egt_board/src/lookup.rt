//! Attacks of men on the bare board, by a table, and the squares between squares.
ghost use Rattle.std.specs.Prelude.{◌≡◌, ℕ, ◌+◌, ◌*◌, ◌<◌, ◌↔◌, slice_index};
ghost use Rattle.egt_board.specs.Prelude.{bit_at, IsBetween, Reaches, row_by, below, beyond, line_of, Has};

use crate::man::{Kind, Man, Side};
use crate::square::Square;
use crate::square_set::SquareSet;
use crate::tables::LONE;

/// The row of rooks in the table of what men attack.
const ROOKS: u8 = 1;
/// The row of bishops there.
const BISHOPS: u8 = 2;

/// The row of the man in the table of what men attack.
fn row(man: Man) -> u8
    ensures value { result ≡ row_by man.side man.kind }
    ensures below { result < 7 }
{
    match man.kind {
        Kind::Q => 0,
        Kind::R => ROOKS,
        Kind::B => BISHOPS,
        Kind::N => 3,
        Kind::P => match man.side {
            Side::White => 4,
            Side::Black => 5,
        },
        Kind::K => 6,
    }
}

/// The squares that this man on `from` attacks on the bare board.
pub(crate) fn lone_reach(man: Man, from: Square) -> SquareSet
    ensures { (t : ℕ) → t < 64 → Has result t ↔ Reaches (λ u. bit_at 0 u ≡ 0) man from t }
{
    row_entry(&LONE, row(man), from)
}

/// The entry of a table by rows of squares.
fn row_entry(table: &[u64; 448], row: u8, at: Square) -> SquareSet
    requires { row < 7 }
    ensures { result.bits ≡ slice_index table.now (64 * row + at) }
{
    SquareSet {
        bits: table[64 * row as usize + at.number() as usize],
    }
}

/// The squares of lesser numbers.
fn below(square: Square) -> u64
    ensures { result ≡ below square }
{
    (1 << square.number()) - 1
}

/// The squares of greater numbers, or of lesser ones, as the second has beside the first. The second may be among them.
fn beyond(first: Square, second: Square) -> u64
    ensures { result ≡ beyond first second }
{
    if first.number() < second.number() {
        u64::MAX - below(second)
    } else {
        below(second)
    }
}

/// The other squares of the file, rank or diagonal on which both stand; none where they stand on no such line.
fn line(one: Square, other: Square) -> u64
    ensures { result ≡ line_of one other }
{
    let straight = row_entry(&LONE, ROOKS, one);
    if straight.contains(other) {
        return straight.bits & row_entry(&LONE, ROOKS, other).bits;
    }
    let diagonal = row_entry(&LONE, BISHOPS, one);
    if diagonal.contains(other) {
        return diagonal.bits & row_entry(&LONE, BISHOPS, other).bits;
    }
    0
}

/// The squares strictly between the two, where they are on one file, rank or diagonal.
pub fn between(one: Square, other: Square) -> SquareSet
    ensures { (t : ℕ) → Has result t ↔ IsBetween one other t }
{
    SquareSet {
        bits: line(one, other) & (below(one) ^ below(other)),
    }
}

/// The squares that a man on `second` hides from `first`.
pub(crate) fn behind(first: Square, second: Square) -> SquareSet
    ensures { (t : ℕ) → Has result t ↔ IsBetween first t second }
{
    SquareSet {
        bits: line(first, second) & beyond(first, second),
    }
}
