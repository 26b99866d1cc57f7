//! Rows turned as the board is.
ghost use Rattle.std.specs.Prelude.{◌≡◌, ℕ, ◌<◌, ◌/◌, ◌%◌, ◌==◌, slice_index};
ghost use Rattle.egt_lanes.specs.Prelude.{square_by, square_if, turned_square};

use crate::row::Row;
use egt_board::{Mirror, of_squares, turned_number};

/// Of each square the one on the file as far from the other edge.
const FILES: [usize; 64] = of_squares!(turned_number; 1);

/// Of each square the one on the rank as far from the other edge.
const RANKS: [usize; 64] = of_squares!(turned_number; 2);

/// Of each square the one with file and rank exchanged.
const DIAGONAL: [usize; 64] = of_squares!(turned_number; 4);

/// The row in the mirror: at each square what stands at the square where that comes to lie.
#[inline(always)]
pub fn mirrored(row: Row, mirror: Mirror) -> Row
    ensures { (s : ℕ) → s < 64 → slice_index result s ≡ slice_index row (square_by mirror s) }
{
    match mirror {
        Mirror::Files => row.swizzle(FILES),
        Mirror::Ranks | Mirror::Colours => row.swizzle(RANKS),
        Mirror::Diagonal => row.swizzle(DIAGONAL),
    }
}

/// The row in the mirror, where asked.
#[inline(always)]
fn mirrored_if(turns: bool, row: Row, mirror: Mirror) -> Row
    ensures { (s : ℕ) → s < 64 → slice_index result s ≡ slice_index row (square_if turns mirror s) }
{
    if turns { mirrored(row, mirror) } else { row }
}

/// The row turned by one of the eight symmetries, and from 8 on with colours exchanged as well: at each square what
/// stands at the square where that comes to lie.
#[inline(always)]
pub fn turned(row: Row, turn: u8) -> Row
    requires { turn < 16 }
    ensures { (s : ℕ) → s < 64 → slice_index result s ≡ slice_index row (turned_square (turn % 8) (turn / 8 == 1) s) }
{
    let by_colours = mirrored_if(turn / 8 == 1, row, Mirror::Colours);
    let by_diagonal = mirrored_if(turn % 8 / 4 == 1, by_colours, Mirror::Diagonal);
    let by_ranks = mirrored_if(turn % 8 / 2 % 2 == 1, by_diagonal, Mirror::Ranks);
    mirrored_if(turn % 8 % 2 == 1, by_ranks, Mirror::Files)
}
