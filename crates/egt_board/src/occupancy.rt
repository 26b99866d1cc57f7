//! The squares of either side's men.
ghost use Rattle.std.specs.Prelude.{◌≡◌, ◌≤◌, ℕ};
ghost use Rattle.egt_board.specs.Prelude.{IsOccupancy, IsOccupied, Setup, IsAdmissible, size_of};

use crate::position::Position;
use crate::square_set::SquareSet;

/// The squares of the men of the side to move, and of those of the side that waits: found once for a position, they
/// serve each man.
#[derive(Clone, Copy)]
pub struct Occupancy {
    pub own: SquareSet,
    pub enemy: SquareSet,
}

impl Occupancy {
    /// The squares of all men.
    pub fn occupied(self) -> SquareSet
        ensures { (p : Setup) → IsOccupancy p self → IsOccupied p.men result }
    {
        self.own.union(self.enemy)
    }
}

impl Position {
    /// The squares of either side's men.
    pub fn occupancy(&self) -> Occupancy
        ensures { IsOccupancy self.now result }
    {
        let own = self.of(self.side());
        Occupancy {
            own,
            enemy: self.board().occupied().difference(own),
        }
    }
}
