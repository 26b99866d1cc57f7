//! The men and the two sides (FIDE Laws of Chess 2023, article 2).
ghost use Rattle.std.specs.Prelude.{◌≡◌};
ghost use Rattle.egt_board.specs.Prelude.{other_side};

/// The two sides of a game.
#[derive(Clone, Copy, Debug, Default, PartialEq, Eq)]
pub enum Side {
    #[default]
    White,
    Black,
}

impl Side {
    /// The opponent.
    pub fn other(self) -> Side
        ensures { result ≡ other_side self }
    {
        match self {
            Side::White => Side::Black,
            Side::Black => Side::White,
        }
    }
}

/// What a man is, by the letter that FEN gives it.
#[derive(Clone, Copy, Debug, Default, PartialEq, Eq)]
pub enum Kind {
    #[default]
    Q,
    R,
    B,
    N,
    P,
    K,
}

/// One man: whose it is, and what it is.
#[derive(Clone, Copy, Debug, Default, PartialEq, Eq)]
pub struct Man {
    pub side: Side,
    pub kind: Kind,
}
