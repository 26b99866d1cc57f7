//! Verdicts, as C reads them.
ghost use Rattle.std.specs.Prelude.{◌≡◌};
ghost use Rattle.egt_c.specs.Prelude.{winner_number};

use egt_board::Side;
use egt_probe::{Outcome, Verdict};

/// The class of a position and how play from it ends.
#[repr(C)]
#[derive(Clone, Copy, Debug, PartialEq, Eq)]
pub struct EgtbAnswer {
    pub class_number: u8,
    /// 0 draw, 1 dead, 2 white mates, 3 black mates.
    pub outcome: u8,
    /// How many plies the mate is away, and 0 where there is none.
    pub plies: u16,
    /// How many plies the next capture, move of a pawn or checkmate is away, and 0 where nobody mates.
    pub zeroing: u16,
}

/// The winner's outcome by number.
fn winner_number(winner: Side) -> u8
    ensures { result ≡ winner_number winner }
{
    match winner {
        Side::White => 2,
        Side::Black => 3,
    }
}

impl EgtbAnswer {
    ghost use Rattle.egt_c.specs.Verdict.{shown};

    pub(crate) fn none() -> EgtbAnswer {
        EgtbAnswer {
            class_number: 0,
            outcome: 0,
            plies: 0,
            zeroing: 0,
        }
    }

    pub(crate) fn of(verdict: &Verdict) -> EgtbAnswer
        ensures { result ≡ shown verdict.now }
    {
        let (outcome, plies, zeroing) = match verdict.value {
            Outcome::Draw => (0, 0, 0),
            Outcome::Dead => (1, 0, 0),
            Outcome::Decided {
                winner,
                plies,
                zeroing,
            } => (winner_number(winner), plies, zeroing),
        };
        EgtbAnswer {
            class_number: verdict.class.number(),
            outcome,
            plies,
            zeroing,
        }
    }
}
