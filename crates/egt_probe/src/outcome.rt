//! The outcome of a position by its table.
ghost use Rattle.std.specs.Prelude.{◌≡◌, codes};

use egt_board::Side;
use egt_class::Class;
use thiserror::Error;

/// How play from a position ends where both sides do their best. Distances are in plies, from 0 to 32,000.
#[derive(Clone, Copy, Debug, Default, PartialEq, Eq)]
pub enum Outcome {
    /// Neither side can force checkmate. It is said of a stalemate too, and of a dead position where the table of the
    /// class lacks the column of the nearest mates.
    #[default]
    Draw,
    /// No legal moves of both sides lead to a checkmate (FIDE Laws of Chess 2023, article 5.2.2). It is said of
    /// positions with a legal move alone, and only where the table of the class has the column of the nearest mates.
    Dead,
    /// The winner forces checkmate within `plies` against every defence, and in no fewer; and a capture, a move of a
    /// pawn or checkmate within `zeroing`, staying a winner by it, and in no fewer.
    Decided {
        winner: Side,
        plies: u16,
        zeroing: u16,
    },
}

/// The class of a position and its outcome.
#[derive(Clone, Copy, Debug, Default, PartialEq, Eq)]
pub struct Verdict {
    pub class: Class,
    pub value: Outcome,
}

/// The position's class has no table in the library.
#[derive(Clone, Copy, Debug, PartialEq, Eq, Error)]
#[error("the class of the position has no table")]
pub struct Missing {
    pub class: Class,
}

impl Missing {
    /// The fault's number among those of the prober.
    pub fn number(&self) -> u8
        ensures { result ≡ 11 }
    {
        11
    }

    /// The fault's name, as it is printed.
    pub fn name(&self) -> &'static str
        ensures { result.now ≡ codes "Missing" }
    {
        "Missing"
    }
}
