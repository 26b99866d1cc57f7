//! Where the kings stand.
ghost use Rattle.std.specs.Prelude.{◌≡◌, ℕ, IfSome, IfNone};
ghost use Rattle.egt_board.specs.Prelude.{IsKingOn};

use crate::board::Board;
use crate::man::{Kind, Man, Side};
use crate::square::Square;

impl Board {
    /// The square of that side's king; `None` where the side has no king or several.
    pub fn king(&self, side: Side) -> Option<Square>
        ensures found { IfSome result (λ s. IsKingOn self.now side s) }
        ensures none { IfNone result ((s : ℕ) → ¬ IsKingOn self.now side s) }
    {
        let king = Man {
            side,
            kind: Kind::K,
        };
        let mut found = None;
        let mut rest = self.of(side);
        while let Some(square) = rest.pop_first() {
            if self.at(square) == Some(king) {
                if found.is_some() {
                    return None;
                }
                found = Some(square);
            }
        }
        found
    }
}
