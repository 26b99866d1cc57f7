//! Why a setup is no position.
ghost use Rattle.std.specs.Prelude.{◌≡◌};

/// The first rule that a setup breaks, in the order of the variants.
#[derive(Clone, Copy, Debug, PartialEq, Eq)]
pub enum PosFault {
    /// More than four men, or a square twice.
    MenCount,
    /// Not one king a side.
    KingCount,
    /// A pawn on the first or the last rank.
    PawnRank,
    /// A target that the last move cannot have set.
    EpMismatch,
    /// The king of the side that waits is attacked.
    WaitingInCheck,
}

impl PosFault {
    ghost use Rattle.egt_board.specs.Fault.{number_of, name_of};

    /// The fault's number, from 7 to 11: those of a FEN's six fields stand before it.
    pub fn number(&self) -> u8
        ensures { result ≡ number_of self.now }
    {
        match self {
            PosFault::MenCount => 7,
            PosFault::KingCount => 8,
            PosFault::PawnRank => 9,
            PosFault::EpMismatch => 10,
            PosFault::WaitingInCheck => 11,
        }
    }

    /// The fault's name, as it is printed.
    pub fn name(&self) -> &'static str
        ensures { result.now ≡ name_of self.now }
    {
        match self {
            PosFault::MenCount => "MenCount",
            PosFault::KingCount => "KingCount",
            PosFault::PawnRank => "PawnRank",
            PosFault::EpMismatch => "EpMismatch",
            PosFault::WaitingInCheck => "WaitingInCheck",
        }
    }
}
