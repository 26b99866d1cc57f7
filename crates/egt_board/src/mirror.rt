//! The mirrors that keep legal play: of files, of ranks, in the long diagonal from a1 to h8, and of colours.
ghost use Rattle.std.specs.Prelude.{◌≡◌, ◌<◌};
ghost use Rattle.egt_board.specs.Prelude.{option_map, square_by, man_by, side_by};

use crate::man::{Man, Side};
use crate::square::Square;

/// A way to turn a board over.
#[derive(Clone, Copy, Debug, PartialEq, Eq)]
pub enum Mirror {
    /// File a becomes file h.
    Files,
    /// Rank 1 becomes rank 8.
    Ranks,
    /// Files and ranks are exchanged.
    Diagonal,
    /// Rank 1 becomes rank 8, and White becomes Black.
    Colours,
}

impl Mirror {
    /// Where the square comes to lie.
    pub fn square(self, square: Square) -> Square
        ensures { result ≡ square_by self square }
    {
        let mirrored = match self {
            Mirror::Files => 8 * square.rank() + (7 - square.file()),
            Mirror::Ranks | Mirror::Colours => 8 * (7 - square.rank()) + square.file(),
            Mirror::Diagonal => 8 * square.file() + square.rank(),
        };
        Square::at(mirrored)
    }

    /// What the side becomes.
    pub fn side(self, side: Side) -> Side
        ensures { result ≡ side_by self side }
    {
        match self {
            Mirror::Colours => side.other(),
            _ => side,
        }
    }

    /// What the man becomes.
    pub fn man(self, man: Man) -> Man
        ensures { result ≡ man_by self man }
    {
        Man {
            side: self.side(man.side),
            kind: man.kind,
        }
    }

    /// Where a target comes to lie, if there is one.
    pub fn target(self, target: Option<Square>) -> Option<Square>
        ensures { result ≡ option_map (square_by self) target }
    {
        match target {
            Some(square) => Some(self.square(square)),
            None => None,
        }
    }
}
