//! Attacks by the men on a board: FIDE Laws of Chess 2023, articles 3.1.3 and 3.9.
ghost use Rattle.std.specs.Prelude.{◌≡◌, ℕ, ◌≤◌, ◌↔◌, IsTrue};
ghost use Rattle.egt_board.specs.Prelude.{bit_at, IsAttacked, IsInCheck, AttacksFrom, IsOccupied, Reaches, IsFree};
ghost use Rattle.egt_board.specs.Prelude.{IsKingOn, Has, size_of, most_reached};
ghost use Rattle.std.specs.FinMap as map;

use crate::attack_lines;
use crate::board::{Board, Slot};
use crate::man::{Man, Side};
use crate::square::Square;
use crate::square_set::SquareSet;

/// Whether the slot's man is that side's and attacks the square where these squares are occupied.
fn attacks_from(slot: &Slot, side: Side, square: Square, occupied: SquareSet) -> bool
    ensures { IsTrue result ↔ AttacksFrom (λ u. bit_at occupied.bits u ≡ 0) side square slot.now }
{
    match slot {
        Some(placed) => {
            placed.1.side == side && attack_lines::attacks(placed.1, placed.0, square, occupied)
        }
        None => false,
    }
}

impl Board {
    /// The squares that this man attacks from `from`, past free squares alone. Squares of its own side's
    /// men are among them.
    pub fn reach(&self, man: Man, from: Square) -> SquareSet
        ensures reached { (t : ℕ) → Has result t ↔ Reaches (IsFree self.now) man from t }
        ensures few { size_of result ≤ most_reached man.kind }
    {
        self.reach_past(man, from, self.occupied())
    }

    /// The squares that this man attacks from `from`, where all men stand on the squares of `all`.
    pub fn reach_past(&self, man: Man, from: Square, all: SquareSet) -> SquareSet
        requires { IsOccupied self.now all }
        ensures reached { (t : ℕ) → Has result t ↔ Reaches (IsFree self.now) man from t }
        ensures few { size_of result ≤ most_reached man.kind }
    {
        attack_lines::reach_past(man, from, all)
    }

    /// Whether a man of that side attacks the square, even if it may not move itself.
    pub fn attacks(&self, square: Square, side: Side) -> bool
        ensures { IsTrue result ↔ IsAttacked self.now square side }
    {
        let occupied = self.occupied();
        if attacks_from(&self.first, side, square, occupied) {
            return true;
        }
        if attacks_from(&self.second, side, square, occupied) {
            return true;
        }
        if attacks_from(&self.third, side, square, occupied) {
            return true;
        }
        attacks_from(&self.fourth, side, square, occupied)
    }

    /// Whether that side's king, which stands on `king`, is attacked.
    pub fn is_in_check(&self, king: Square, side: Side) -> bool
        requires { IsKingOn self.now side king }
        ensures { IsTrue result ↔ IsInCheck self.now side }
    {
        self.attacks(king, side.other())
    }
}
