//! The words of the fields of a text, before it is known whether the men make a position.
ghost use Rattle.std.specs.Prelude.{◌<◌};

use arrayvec::ArrayVec;
use egt_board::{Man, Side, Square};

/// The men, the side to move, the target and the clocks.
#[derive(Drop)]
pub struct Parts {
    pub men: ArrayVec<(Man, Square), 64>,
    pub side: Side,
    pub target: Option<Square>,
    pub halfmove: u32,
    pub fullmove: u32,
    ghost halfmove_small: { halfmove < 1000000000 },
    ghost fullmove_small: { fullmove < 1000000000 },
}
