//! The steps that pieces go by, on squares by number.
use crate::code::{file, rank};
use egt_board::Kind;

/// Steps of files and ranks; 255 is one back.
const ROOK_STEPS: [(u8, u8); 4] = [(0, 1), (1, 0), (0, 255), (255, 0)];

const BISHOP_STEPS: [(u8, u8); 4] = [(1, 1), (1, 255), (255, 1), (255, 255)];

pub(crate) const ALL_STEPS: [(u8, u8); 8] = [
    (0, 1),
    (1, 0),
    (0, 255),
    (255, 0),
    (1, 1),
    (1, 255),
    (255, 1),
    (255, 255),
];

const KNIGHT_STEPS: [(u8, u8); 8] = [
    (1, 2),
    (2, 1),
    (255, 2),
    (254, 1),
    (1, 254),
    (2, 255),
    (255, 254),
    (254, 255),
];

/// The square one step away, if there is one.
pub fn stepped(square: u8, step: (u8, u8)) -> Option<u8> {
    let file = file(square).wrapping_add(step.0);
    let rank = rank(square).wrapping_add(step.1);
    if file < 8 && rank < 8 {
        Some(8 * rank + file)
    } else {
        None
    }
}

/// The steps of a piece, and how often it may repeat one (FIDE Laws of Chess 2023, articles 3.2 to 3.8); a pawn has
/// none.
pub fn steps_of(kind: Kind) -> (&'static [(u8, u8)], u8) {
    match kind {
        Kind::Q => (&ALL_STEPS, 7),
        Kind::R => (&ROOK_STEPS, 7),
        Kind::B => (&BISHOP_STEPS, 7),
        Kind::N => (&KNIGHT_STEPS, 1),
        Kind::K => (&ALL_STEPS, 1),
        Kind::P => (&[], 0),
    }
}
