//! Positions without a target that no pawn stands ready to take.
ghost use Rattle.std.specs.Prelude.{◌≡◌, ℕ, ◌<◌, ◌↔◌, IsTrue};
ghost use Rattle.egt_board.specs.Prelude.{IsSettled, SettlesTo, untargeted};

use crate::position::Position;

impl Position {
    /// The position without its target.
    fn untargeted(&self) -> Position
        ensures { result ≡ untargeted self.now }
    {
        Position::admitted(self.board().copied(), self.side(), None)
    }

    /// Whether the position has no target, or a pawn of the side to move stands beside the pawn that advanced.
    pub fn is_settled(&self) -> bool
        ensures { IsTrue result ↔ IsSettled self.now }
    {
        match self.target() {
            Some(target) => {
                let mover = self.side();
                let advanced = target.ahead(mover.other());
                self.board().has_pawn_beside(mover, advanced)
            }
            None => true,
        }
    }

    /// The position, without its target where no pawn of the side to move stands beside the pawn that advanced.
    pub fn settle(&self) -> Position
        ensures { SettlesTo self.now result }
    {
        if self.is_settled() {
            self.copied()
        } else {
            self.untargeted()
        }
    }
}
