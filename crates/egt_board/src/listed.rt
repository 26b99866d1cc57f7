//! A board from a list of men.
ghost use Rattle.std.specs.Prelude.{◌≡◌, ℕ, ◌<◌, ◌↔◌, IsSome, IfSome};
ghost use Rattle.egt_board.specs.Prelude.{men_of, FitsBoard, Stands};

use crate::board::Board;
use crate::man::Man;
use crate::square::Square;

impl Board {
    /// The board with these men, in whatever order; `None` where there are more than four or two on one square.
    pub fn of_men(men: &[(Man, Square)]) -> Option<Board>
        ensures fits { IsSome result ↔ FitsBoard men.now }
        ensures placed { IfSome result (λ board. board ≡ men_of men.now) }
        ensures on_board { IfSome result (λ board. (s : ℕ) (man : Man) → Stands board s man → s < 64) }
    {
        if men.len() > 4 {
            return None;
        }
        let mut board = Board::new();
        for &(man, square) in men {
            if board.at(square).is_some() {
                return None;
            }
            board.put(square, man);
        }
        let _occupied = board.occupied();
        Some(board)
    }
}
