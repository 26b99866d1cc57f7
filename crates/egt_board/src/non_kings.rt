//! The men of a board beside the kings.
ghost use Rattle.std.specs.Prelude.{◌≡◌, ◌≢◌, ℕ, IfSome, IfNone, if◌then◌else◌};
ghost use Rattle.egt_board.specs.Prelude.{option_map, AreBeside, holds_king, without_king, HasKings};

use crate::board::{Board, Slot};
use crate::man::{Kind, Man};
use crate::square::Square;

/// Whether the slot's man is a king.
fn is_king(slot: &Slot) -> bool
    ensures { result ≡ holds_king slot.now }
{
    match slot {
        Some(placed) => placed.1.kind == Kind::K,
        None => false,
    }
}

/// The man of the slot and his square, if there is one.
fn entry(slot: &Slot) -> Option<(Man, Square)>
    ensures { result ≡ option_map (λ e. (e.1, e.0)) slot.now }
{
    match slot {
        Some(placed) => Some((placed.1, placed.0)),
        None => None,
    }
}

/// The first of these slots without a king, and the last where both others have one. All is asked first, so that no
/// jump hangs on where the kings stand.
#[inline(always)]
fn without_king<'a>(one: &'a Slot, two: &'a Slot, three: &'a Slot) -> &'a Slot
    ensures { result.now ≡ without_king one.now two.now three.now }
{
    let (first, second) = (is_king(one), is_king(two));
    if !first {
        return one;
    }
    if second { three } else { two }
}

impl Board {
    /// The one or two men beside the kings, in order of square, of a board with one king a side.
    #[inline(always)]
    pub fn non_kings(&self) -> (Option<(Man, Square)>, Option<(Man, Square)>)
        requires { HasKings self.now }
        ensures { AreBeside self.now result.0 result.1 }
    {
        let front = without_king(&self.first, &self.second, &self.third);
        let back = without_king(&self.fourth, &self.third, &self.second);
        (entry(front), entry(back))
    }
}
