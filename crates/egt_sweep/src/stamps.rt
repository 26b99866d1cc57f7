//! Stamps: for each pair of kings' squares and side to move, when entries of such positions last changed.
ghost use Rattle.std.specs.Prelude.{◌≡◌, ◌<◌, ◌≤◌, ◌/◌, ◌%◌, ◌==◌, ℕ, false, length, slice_index, IfOk};
ghost use Rattle.egt_sweep.specs.FillPrelude.{turned_square, material_of, IsTurnWith, has_pawns, IsFresh, stamp_place};
ghost use Rattle.egt_sweep.specs.FillPrelude.{Side, TurnsTo};

use crate::turns::turns_of;
use egt_blocks::king_blocks::beside_king;
use egt_blocks::men::with_king;
use egt_board::{Side, Square};
use egt_class::Class;
use egt_index::ShelfMen;
use egt_index::men::has_equal_sides;
use egt_index::turning::turned_square;
use std::alloc::{AllocError, Global};

/// The stamps, and the tick that is stamped next.
#[derive(Drop)]
pub(crate) struct Marks {
    pub(crate) stamps: Vec<u32>,
    pub(crate) tick: u32,
}

/// How many places there are: one for each pair of kings' squares and side to move.
pub(crate) const PLACES: usize = 8192;

/// No stamp of any entries.
pub(crate) fn no_marks(alloc: Global) -> Result<Marks, AllocError>
    ensures long { IfOk result (λ marks. length marks.stamps.items ≡ 8192) }
    ensures none { IfOk result (λ marks. (i : ℕ) → slice_index marks.stamps.items i ≡ 0) }
{
    let stamps = vec![in alloc; 0; PLACES]?;
    Ok(Marks { stamps, tick: 1 })
}

/// The place of the stamp of positions with the kings on these squares and that side to move.
#[inline(always)]
pub(crate) fn stamp_place(side: Side, white: Square, black: Square) -> usize
    ensures is { result ≡ stamp_place side white black }
    ensures within { result < 8192 }
{
    let first = match side {
        Side::White => 0,
        Side::Black => 4096,
    };
    first + 64 * usize::from(white.number()) + usize::from(black.number())
}

/// Whether entries changed since `looked` with the kings where the turn takes these squares, and that side to move.
fn changed_after(
    turn: u8,
    white: Square,
    black: Square,
    side: Side,
    stamps: &[u32],
    looked: u32,
) -> bool
    requires turn { turn < 16 }
    requires stamps { length stamps.now ≡ 8192 }
    ensures { result ≡ false → slice_index stamps.now
        (stamp_place side (turned_square (turn % 8) (turn / 8 == 1) white)
        (turned_square (turn % 8) (turn / 8 == 1) black)) ≤ looked }
{
    let place = stamp_place(side, turned_square(turn, white), turned_square(turn, black));
    stamps[place] > looked
}

/// Whether entries changed since `looked` with the kings where some turn of the class that exchanges colours so takes
/// these squares, and that side to move.
fn any_changed(
    class: Class,
    flips: bool,
    white: Square,
    black: Square,
    side: Side,
    stamps: &[u32],
    looked: u32,
) -> bool
    requires { length stamps.now ≡ 8192 }
    ensures { result ≡ false → (t : ℕ) → IsTurnWith (has_pawns (material_of class)) flips t → slice_index stamps.now
        (stamp_place side (turned_square (t % 8) flips white) (turned_square (t % 8) flips black)) ≤ looked }
{
    let (first, end) = turns_of(class, flips);
    for turn in first..end {
        if changed_after(turn, white, black, side, stamps, looked) {
            return true;
        }
    }
    false
}

/// Whether entries changed since `looked` of positions that some turn of the class makes of those with the kings on
/// these squares and that side to move.
fn turned_since(
    class: Class,
    white: Square,
    black: Square,
    side: Side,
    stamps: &[u32],
    looked: u32,
) -> bool
    requires { length stamps.now ≡ 8192 }
    ensures { result ≡ false → (w b : ℕ) (s : Side) → TurnsTo class white black side w b s →
        slice_index stamps.now (stamp_place s w b) ≤ looked }
{
    if any_changed(class, false, white, black, side, stamps, looked) {
        return true;
    }
    has_equal_sides(class) && any_changed(class, true, black, white, side.other(), stamps, looked)
}

/// Whether a block is to be looked at: entries that are read for these men and that side changed since `looked`, its
/// last look, or it had none and that is 0.
pub(crate) fn needs_look(
    class: Class,
    men: &ShelfMen,
    side: Side,
    stamps: &[u32],
    looked: u32,
) -> bool
    requires { length stamps.now ≡ 8192 }
    ensures { result ≡ false → IsFresh class men.now side stamps.now looked }
{
    let other = side.other();
    if looked == 0 || turned_since(class, men.white, men.black, other, stamps, looked) {
        return true;
    }
    let mut rest = beside_king(men, side);
    while let Some(to) = rest.pop_first() {
        let stepped = with_king(men, side, to);
        if turned_since(class, stepped.white, stepped.black, other, stamps, looked) {
            return true;
        }
    }
    false
}
