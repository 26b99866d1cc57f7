//! The turns that bring a king to a square of the white king's digit.
ghost use Rattle.std.specs.Prelude.{◌≡◌, ℕ, ◌<◌, ◌+◌, false, slice_index, None, IfSome, if◌then◌else◌};
ghost use Rattle.egt_index.specs.Prelude.{king_square, AreHome, king_base};

use egt_board::Square;

/// The first such turn for each square of a king: without pawns, without and with colours exchanged, and then with
/// pawns.
static FIRST: [u8; 256] = [
    0, 0, 0, 0, 1, 1, 1, 1, 4, 0, 0, 0, 1, 1, 1, 5, 4, 4, 0, 0, 1, 1, 5, 5, 4, 4, 4, 0, 1, 5, 5, 5,
    6, 6, 6, 2, 3, 7, 7, 7, 6, 6, 2, 2, 3, 3, 7, 7, 6, 2, 2, 2, 3, 3, 3, 7, 2, 2, 2, 2, 3, 3, 3, 3,
    10, 10, 10, 10, 11, 11, 11, 11, 13, 10, 10, 10, 11, 11, 11, 12, 13, 13, 10, 10, 11, 11, 12, 12,
    13, 13, 13, 10, 11, 12, 12, 12, 15, 15, 15, 8, 9, 14, 14, 14, 15, 15, 8, 8, 9, 9, 14, 14, 15,
    8, 8, 8, 9, 9, 9, 14, 8, 8, 8, 8, 9, 9, 9, 9, 0, 0, 0, 0, 1, 1, 1, 1, 0, 0, 0, 0, 1, 1, 1, 1,
    0, 0, 0, 0, 1, 1, 1, 1, 0, 0, 0, 0, 1, 1, 1, 1, 0, 0, 0, 0, 1, 1, 1, 1, 0, 0, 0, 0, 1, 1, 1, 1,
    0, 0, 0, 0, 1, 1, 1, 1, 0, 0, 0, 0, 1, 1, 1, 1, 8, 8, 8, 8, 9, 9, 9, 9, 8, 8, 8, 8, 9, 9, 9, 9,
    8, 8, 8, 8, 9, 9, 9, 9, 8, 8, 8, 8, 9, 9, 9, 9, 8, 8, 8, 8, 9, 9, 9, 9, 8, 8, 8, 8, 9, 9, 9, 9,
    8, 8, 8, 8, 9, 9, 9, 9, 8, 8, 8, 8, 9, 9, 9, 9,
];

/// The last such turn, in the same order: there are one or two.
static LAST: [u8; 256] = [
    4, 0, 0, 0, 1, 1, 1, 5, 4, 4, 0, 0, 1, 1, 5, 5, 4, 4, 4, 0, 1, 5, 5, 5, 4, 4, 4, 4, 5, 5, 5, 5,
    6, 6, 6, 6, 7, 7, 7, 7, 6, 6, 6, 2, 3, 7, 7, 7, 6, 6, 2, 2, 3, 3, 7, 7, 6, 2, 2, 2, 3, 3, 3, 7,
    13, 10, 10, 10, 11, 11, 11, 12, 13, 13, 10, 10, 11, 11, 12, 12, 13, 13, 13, 10, 11, 12, 12, 12,
    13, 13, 13, 13, 12, 12, 12, 12, 15, 15, 15, 15, 14, 14, 14, 14, 15, 15, 15, 8, 9, 14, 14, 14,
    15, 15, 8, 8, 9, 9, 14, 14, 15, 8, 8, 8, 9, 9, 9, 14, 0, 0, 0, 0, 1, 1, 1, 1, 0, 0, 0, 0, 1, 1,
    1, 1, 0, 0, 0, 0, 1, 1, 1, 1, 0, 0, 0, 0, 1, 1, 1, 1, 0, 0, 0, 0, 1, 1, 1, 1, 0, 0, 0, 0, 1, 1,
    1, 1, 0, 0, 0, 0, 1, 1, 1, 1, 0, 0, 0, 0, 1, 1, 1, 1, 8, 8, 8, 8, 9, 9, 9, 9, 8, 8, 8, 8, 9, 9,
    9, 9, 8, 8, 8, 8, 9, 9, 9, 9, 8, 8, 8, 8, 9, 9, 9, 9, 8, 8, 8, 8, 9, 9, 9, 9, 8, 8, 8, 8, 9, 9,
    9, 9, 8, 8, 8, 8, 9, 9, 9, 9, 8, 8, 8, 8, 9, 9, 9, 9,
];

/// The tables' entries.
fn entries(at: usize) -> (u8, u8)
    requires { at < 256 }
    ensures first { result.0 ≡ slice_index FIRST at }
    ensures last { result.1 ≡ slice_index LAST at }
{
    (FIRST[at], LAST[at])
}

/// The number of the entries.
fn row(pawns: bool, flips: bool, king: Square) -> usize
    ensures is { result ≡ (if pawns then 128 else 0) + (if flips then 64 else 0) + king }
    ensures on_board { king < 64 }
{
    let of_pawns = if pawns { 128 } else { 0 };
    let of_colours = if flips { 64 } else { 0 };
    of_pawns + of_colours + usize::from(king.number())
}

/// The turns, with colours exchanged or not, that bring the king home, among those that the pawns allow.
pub fn home(pawns: bool, flips: bool, king: Square) -> (u8, Option<u8>)
    ensures { AreHome pawns flips king result.0 result.1 }
{
    let (first, second) = entries(row(pawns, flips, king));
    if first == second {
        (first, None)
    } else {
        (first, Some(second))
    }
}

/// The turn, beside the one that changes nothing, that leaves the king at home who is there, in the same colours: it
/// exchanges files and ranks, where he stands on the long diagonal.
pub(crate) fn still_home(pawns: bool, king: Square) -> Option<u8>
    ensures home { (digit : ℕ) → digit < king_base pawns → king_square pawns digit ≡ king →
        AreHome pawns false king 0 result }
    ensures below { IfSome result (λ turn. turn < 16) }
{
    if !pawns & (king.file() == king.rank()) {
        Some(4)
    } else {
        None
    }
}
