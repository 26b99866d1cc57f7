//! Shelves of a class.
use egt_board::Side;
use egt_index::ShelfMen;

/// A shelf of a class: its men with all squares of the last one, the side to move, and whether its positions have a
/// target.
#[derive(Clone, Copy)]
pub struct Shelf {
    pub number: u32,
    pub men: ShelfMen,
    pub side: Side,
    pub targeted: bool,
}
