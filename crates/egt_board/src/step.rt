//! Steps from square to square: so many files and so many ranks further.
ghost use Rattle.std.specs.Prelude.{◌≡◌, ℕ, ◌<◌, ◌≤◌, IfSome, IfNone};
ghost use Rattle.egt_board.specs.Prelude.{Further};

use crate::square::Square;

/// A way along the files or along the ranks.
#[derive(Clone, Copy, Debug, PartialEq, Eq)]
pub enum Way {
    Up,
    Down,
    Still,
}

/// One step: `wide` files along the way `files`, and `high` ranks along the way `ranks`.
#[derive(Clone, Copy, Debug, PartialEq, Eq)]
pub struct Step {
    pub files: Way,
    pub wide: u8,
    pub ranks: Way,
    pub high: u8,
}

impl Square {
    ghost use Rattle.egt_board.specs.Step.{Away};

    /// The square one step further; `None` where that is off the board.
    pub fn stepped(self, step: Step) -> Option<Square>
        requires wide { step.wide < 8 }
        requires high { step.high < 8 }
        ensures found { IfSome result (λ t. Away step 1 self t) }
        ensures off_board { IfNone result ((t : ℕ) → ¬ Away step 1 self t) }
    {
        let file = further(step.files, step.wide, self.file())?;
        let rank = further(step.ranks, step.high, self.rank())?;
        Square::new(8 * rank + file)
    }
}

/// The coordinate (a file or a rank, from 0 to 7) that is `by` further along `way`; `None` off the board.
fn further(way: Way, by: u8, at: u8) -> Option<u8>
    requires at_in { at < 8 }
    requires by_in { by < 8 }
    ensures found { IfSome result (λ b. Further way by at b) }
    ensures on_board { IfSome result (λ b. b < 8) }
    ensures off_board { IfNone result ((b : ℕ) → b < 8 → ¬ Further way by at b) }
{
    match way {
        Way::Up => (at + by < 8).then_some(at + by),
        Way::Down => { if by <= at { Some(at - by) } else { None } }
        Way::Still => Some(at),
    }
}
