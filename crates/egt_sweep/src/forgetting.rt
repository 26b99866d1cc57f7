//! Blocks that are forgotten: those that were read from entries in whose place others were put.
ghost use Rattle.std.specs.Prelude.{◌≡◌, ◌<◌, ◌/◌, ◌%◌, ◌==◌, ℕ, None, length, slice_index_or};
ghost use Rattle.egt_sweep.specs.FillPrelude.{other_side, turned_square, Side, material_of, IsTurnWith, has_pawns};
ghost use Rattle.egt_sweep.specs.FillPrelude.{wide_place, Column, AreFewer, AreForgotten};

use crate::turns::turns_of;
use egt_blocks::kept_blocks::{BlockKey, wide_place};
use egt_board::Square;
use egt_class::Class;
use egt_index::men::has_equal_sides;
use egt_index::turning::turned_square;
use egt_table::Column;

/// Forgets the blocks of the kings on these squares.
fn forget_at(white: Square, black: Square, keys: &mut [Option<BlockKey>])
    requires { 0 < length keys.old }
    ensures fewer { AreFewer keys.old keys.new }
    ensures gone { (column : Column) → slice_index_or keys.new
        (wide_place column white black (length keys.old)) None ≡ None }
{
    let places = keys.len();
    keys[wide_place(Column::Mate, white, black, places)] = None;
    keys[wide_place(Column::Zeroing, white, black, places)] = None;
}

/// Forgets the blocks of the kings where the turns of the class that exchange colours so take these.
fn forget_turned(
    class: Class,
    flips: bool,
    white: Square,
    black: Square,
    keys: &mut [Option<BlockKey>],
)
    requires { 0 < length keys.old }
    ensures fewer { AreFewer keys.old keys.new }
    ensures gone { (t : ℕ) (column : Column) → IsTurnWith (has_pawns (material_of class)) flips t →
        slice_index_or keys.new (wide_place column (turned_square (t % 8) flips white)
        (turned_square (t % 8) flips black) (length keys.old)) None ≡ None }
{
    let (first, end) = turns_of(class, flips);
    for turn in first..end {
        forget_at(turned_square(turn, white), turned_square(turn, black), keys);
    }
}

/// Forgets the blocks that were read from positions with the kings on these squares, among those with the same side to
/// move and those with the other.
pub(crate) fn forget_read(
    class: Class,
    white: Square,
    black: Square,
    same: &mut [Option<BlockKey>],
    others: &mut [Option<BlockKey>],
)
    requires same { 0 < length same.old }
    requires others { 0 < length others.old }
    ensures same { (side : Side) → AreForgotten class white black side side same.old same.new }
    ensures others { (side : Side) → AreForgotten class white black side (other_side side) others.old others.new }
{
    forget_turned(class, false, white, black, same);
    // Where sides have the same men, these positions are read as those with the other side to move too, in exchanged
    // colours.
    if has_equal_sides(class) {
        forget_turned(class, true, black, white, others);
    }
}
