//! The eight symmetries of the board.
ghost use Rattle.std.specs.Prelude.{◌≡◌, ◌<◌, ◌↔◌, IsSome, IfSome, IsTrue, ◌%◌, ◌/◌, ◌==◌};

use crate::mirror::Mirror;
use crate::position::Position;
use std::marker::Model;

/// A symmetry of the board, by its number from 0 to 7: the mirror of files where bit 1 is set, then the mirror
/// of ranks where bit 2 is, then the exchange of files and ranks where bit 4 is. 0 is the identity.
#[derive(Clone, Copy, Debug, PartialEq, Eq)]
pub struct Symmetry {
    number: u8,
}

impl Model for Symmetry {
    ghost use Rattle.std.specs.Prelude.{ℕ, ◌<◌};
    ghost use Rattle.std.specs.Coded.{coded_ℕ};

    ghost Value = { ℕ };

    ghost coded = { coded_ℕ };

    ghost view = { λ a. a.number };

    ghost invariant = { λ a. a.number < 8 };

    ghost inverse = { λ n. record { number = n } };
}

impl Symmetry {
    /// The symmetry of that number; `None` from 8 on.
    pub fn new(number: u8) -> Option<Symmetry>
        ensures below { IsSome result ↔ (number < 8) }
        ensures value { IfSome result (λ s. s ≡ number) }
    {
        if number < 8 {
            Some(Symmetry { number })
        } else {
            None
        }
    }

    /// The number, from 0 to 7.
    pub fn number(self) -> u8
        ensures value { result ≡ self }
        ensures below { result < 8 }
    {
        self.number
    }
}

impl Position {
    ghost use Rattle.egt_board.specs.Symmetry.{IsImage, IsTurned, IsKeepingSides, KeepsPlay};
    ghost use Rattle.egt_board.specs.Mirror.{IsMirrored, Allows};
    ghost use Rattle.egt_board.specs.Pawn.{HasNoPawn};
    ghost use Rattle.egt_board.specs.declared.mirror.Mirror.TheVariants.{Colours};

    /// The position in the mirror, or as it is.
    fn turned(&self, mirror: Mirror, turns: bool) -> Position
        requires sides { IsKeepingSides mirror }
        requires allowed { IsTrue turns → Allows mirror self.now.men }
        ensures turned { IsTurned mirror turns self.now result }
        ensures no_pawn { HasNoPawn self.now.men → HasNoPawn result.men }
    {
        if turns {
            self.mirrored(mirror)
        } else {
            self.copied()
        }
    }

    /// The position under a symmetry of the board: the same men, side and target on other squares. Where there is
    /// a pawn, the symmetry is the identity or the mirror of files.
    pub fn image(&self, symmetry: Symmetry) -> Position
        requires { KeepsPlay symmetry self.now.men }
        ensures { IsImage symmetry self.now result }
    {
        let number = symmetry.number();
        let by_files = self.turned(Mirror::Files, number % 2 == 1);
        let by_ranks = by_files.turned(Mirror::Ranks, number / 2 % 2 == 1);
        by_ranks.turned(Mirror::Diagonal, number / 4 == 1)
    }

    /// The position with colours exchanged: the men's and the side to move's, and ranks mirrored.
    pub fn flip_colours(&self) -> Position
        ensures { IsMirrored Colours self.now result }
    {
        self.mirrored(Mirror::Colours)
    }
}

/// The number of the square that a symmetry makes of the square; from 8 on those with colours exchanged.
#[macro_export]
macro_rules! turned_number {
    ($square:literal $turn:literal) => {
        if $turn / 4 % 2 == 1 {
            ($square % 8 * 8 + $square / 8) ^ ($turn % 2 * 56) ^ ($turn / 2 % 2 * 7)
        } else {
            $square ^ ($turn % 2 * 7) ^ ($turn / 2 % 2 * 56)
        } ^ ($turn / 8 * 56)
    };
}
