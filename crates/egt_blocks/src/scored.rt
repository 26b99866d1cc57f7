//! Scores of the codes of a class, told by rows: a number for each square of one man, the others standing still.
ghost use Rattle.std.specs.Prelude.{◌≡◌, ◌<◌, ℕ, false, slice_index};
ghost use Rattle.egt_blocks.specs.Prelude.{IsLoneRow, lone_stand, IsShelfOf, IsWithin, stand_with, TellsMen, IsRaised};
ghost use Rattle.egt_blocks.specs.Prelude.{Column};

use egt_board::{Man, Side, Square};
use egt_class::Class;
use egt_index::ShelfMen;
use egt_lanes::Row;
use egt_table::Column;

/// The scores of a class with two men beside the kings.
pub trait ShelfScores {
    ghost number: { Self → ℕ };

    ghost worth: { Self → Column → ℕ → ℕ };

    ghost has: { Self → Column → Type 0 };

    /// The class.
    fn class(&self) -> Class
        ensures is { result ≡ number self.now }
        ensures known { number self.now < 36 };

    /// What the codes that tell these men are worth in the column, by the last man's square, and with a target where
    /// one was passed. The men are those of the shelf.
    fn shelf_row(
        &self,
        column: Column,
        men: &ShelfMen,
        shelf: u32,
        side: Side,
        targeted: bool,
    ) -> Row
        requires there { has self.now column }
        requires shelf { IsShelfOf targeted (number self.now) shelf men.now }
        requires within { IsWithin (number self.now) shelf }
        ensures { (s : ℕ) → s < 64 → IsRaised 0
            (λ code. TellsMen targeted (number self.now) code (stand_with men.now s) side) (worth self.now column)
            (slice_index result s) };
}

/// The scores of a class with one man beside the kings.
pub trait LoneScores {
    ghost number: { Self → ℕ };

    ghost worth: { Self → Column → ℕ → ℕ };

    ghost has: { Self → Column → Type 0 };

    /// The class.
    fn class(&self) -> Class
        ensures is { result ≡ number self.now }
        ensures known { number self.now < 36 };

    /// What the codes that tell these men are worth in the column, by the square of the one beside the kings. The first
    /// of the codes is that of his first digit with White to move.
    fn lone_row(
        &self,
        column: Column,
        man: Man,
        white: Square,
        black: Square,
        first: u32,
        side: Side,
    ) -> Row
        requires there { has self.now column }
        requires lone { IsLoneRow (number self.now) first white black man }
        ensures { (s : ℕ) → s < 64 → IsRaised 0
            (λ code. TellsMen false (number self.now) code (lone_stand white black man s) side)
            (worth self.now column) (slice_index result s) };
}
