//! Positions in a mirror.
ghost use Rattle.std.specs.Prelude.{◌≡◌, ℕ, ◌<◌, ◌≤◌};
ghost use Rattle.egt_board.specs.Prelude.{option_map, IsMirrored, Allows, square_by, man_by, Stands, Man};
ghost use Rattle.std.specs.FinMap as map;

use crate::board::Board;
use crate::mirror::Mirror;
use crate::position::Position;

impl Position {
    /// The board in a mirror.
    fn mirrored_board(&self, mirror: Mirror) -> Board
        requires { map.len self.now.men ≤ 4 }
        ensures shows { (t : ℕ) → t < 64
            → map.get result (square_by mirror t) ≡ option_map (man_by mirror) (map.get self.now.men t) }
        ensures on_board { (s : ℕ) (man : Man) → Stands result s man → s < 64 }
        ensures few { map.len result ≤ map.len self.now.men }
    {
        let mut board = Board::new();
        let mut rest = self.board().occupied();
        while let Some(square) = rest.pop_first() {
            let man = self.at(square).unwrap();
            board.put(mirror.square(square), mirror.man(man));
        }
        board
    }

    /// The position in a mirror: its men, the side to move and the target. Where there is a pawn, only the
    /// mirrors of files and of colours may be taken.
    pub fn mirrored(&self, mirror: Mirror) -> Position
        requires { Allows mirror self.now.men }
        ensures { IsMirrored mirror self.now result }
    {
        let side = mirror.side(self.side());
        let board = self.mirrored_board(mirror);
        let target = mirror.target(self.target());
        Position::admitted(board, side, target)
    }
}
