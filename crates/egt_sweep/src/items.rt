//! Items: the kings on two squares with one side to move.

use egt_board::{Side, Square, SquareSet};
use egt_lanes::Block;

/// The positions whose kings stand on two squares, with one side to move.
#[derive(Drop)]
pub(crate) struct Item {
    /// The first of the shelves with the kings there, without a target.
    pub(crate) first: u32,
    pub(crate) white: Square,
    pub(crate) black: Square,
    pub(crate) side: Side,
    /// When they were last looked at; 0 before they are.
    pub(crate) looked: u32,
    /// The last man's squares at which there is no move, by the first man's.
    pub(crate) ended: [SquareSet; 64],
    /// The ends where there is a target.
    pub(crate) targeted_ended: [SquareSet; 64],
    /// The greatest scores of the moves that leave the class, but captures in passing.
    pub(crate) leaving: Box<Block>,
}
