//! The fields of a FEN text.
ghost use Rattle.std.specs.Prelude.{◌<◌};

use egt_board::Position;

/// A position with its clocks, each below 1,000,000,000.
#[derive(Drop)]
pub struct Fen {
    pub position: Position,
    /// The halfmove clock.
    pub halfmove: u32,
    /// The fullmove number.
    pub fullmove: u32,
    ghost halfmove_small: { halfmove < 1000000000 },
    ghost fullmove_small: { fullmove < 1000000000 },
}
