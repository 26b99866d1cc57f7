//! Why a text is no FEN of a position.
ghost use Rattle.std.specs.Prelude.{◌≡◌};

use egt_board::PosFault;
use thiserror::Error;

/// The first fault of a text, in the order of the variants.
#[derive(Clone, Copy, Debug, PartialEq, Eq, Error)]
pub enum FenFault {
    /// Neither six fields nor four.
    #[error("a FEN has six fields or four")]
    FieldCount,
    /// The first field is no eight ranks of eight squares each.
    #[error("the placement is not eight ranks of eight squares")]
    Placement,
    /// The second field is neither `w` nor `b`.
    #[error("the side to move is neither w nor b")]
    Colour,
    /// The third field is not `-`: castling is left out.
    #[error("castling rights are not supported")]
    Castling,
    /// The fourth field is neither `-` nor a square of the third or the sixth rank.
    #[error("the en passant target is no square of rank 3 or 6")]
    EpField,
    /// A clock is not one to nine decimal digits.
    #[error("a clock is not a number of one to nine digits")]
    Counter,
    /// More than four men.
    #[error("more than four men")]
    MenCount,
    /// Not one king a side.
    #[error("not one king a side")]
    KingCount,
    /// A pawn on the first or the last rank.
    #[error("a pawn on the first or the last rank")]
    PawnRank,
    /// An en passant target that the last move cannot have set.
    #[error("the last move cannot have set the en passant target")]
    EpMismatch,
    /// The king of the side that waits is attacked.
    #[error("the side that waits is in check")]
    WaitingInCheck,
}

impl FenFault {
    ghost use Rattle.egt_fen.specs.Fault.{number_of, name_of};

    /// The fault's number, from 1 to 11.
    pub fn number(&self) -> u8
        ensures { result ≡ number_of self.now }
    {
        match self {
            FenFault::FieldCount => 1,
            FenFault::Placement => 2,
            FenFault::Colour => 3,
            FenFault::Castling => 4,
            FenFault::EpField => 5,
            FenFault::Counter => 6,
            FenFault::MenCount => 7,
            FenFault::KingCount => 8,
            FenFault::PawnRank => 9,
            FenFault::EpMismatch => 10,
            FenFault::WaitingInCheck => 11,
        }
    }

    /// The fault's name, as it is printed.
    pub fn name(&self) -> &'static str
        ensures { result.now ≡ name_of self.now }
    {
        match self {
            FenFault::FieldCount => "FieldCount",
            FenFault::Placement => "Placement",
            FenFault::Colour => "Colour",
            FenFault::Castling => "Castling",
            FenFault::EpField => "EpField",
            FenFault::Counter => "Counter",
            FenFault::MenCount => "MenCount",
            FenFault::KingCount => "KingCount",
            FenFault::PawnRank => "PawnRank",
            FenFault::EpMismatch => "EpMismatch",
            FenFault::WaitingInCheck => "WaitingInCheck",
        }
    }
}

impl From<PosFault> for FenFault {
    ghost use Rattle.std.specs.Prelude.{◌≡◌};
    ghost use Rattle.egt_fen.specs.Fault.{fault_of};

    ghost from_gives = { λ p f. f ≡ fault_of p };

    fn from(fault: PosFault) -> FenFault {
        match fault {
            PosFault::MenCount => FenFault::MenCount,
            PosFault::KingCount => FenFault::KingCount,
            PosFault::PawnRank => FenFault::PawnRank,
            PosFault::EpMismatch => FenFault::EpMismatch,
            PosFault::WaitingInCheck => FenFault::WaitingInCheck,
        }
    }
}
