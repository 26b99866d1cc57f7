//! The placement.
ghost use Rattle.std.specs.Prelude.{◌≡◌};
ghost use Rattle.egt_fen.specs.Prelude.{option_map, placement_of};

use crate::walk::Walk;
use arrayvec::ArrayVec;
use egt_board::{Man, Square};

/// The men that a placement spells, from the eighth rank to the first and from the a-file to the h-file.
/// `None` where it is not eight ranks of eight squares.
pub fn placement_of(field: &[u8]) -> Option<ArrayVec<(Man, Square), 64>>
    ensures { option_map (λ men. men.items) result ≡ placement_of field.now }
{
    let mut walk = Walk::new();
    for byte in field {
        walk.step(*byte)?;
    }
    walk.finish()
}
