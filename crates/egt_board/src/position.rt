//! Positions: the setups that the rules of play admit.
ghost use Rattle.std.specs.Prelude.{◌≡◌, ℕ, ◌≤◌, ◌↔◌, IsOk, IfOk, IfErr, IsTrue, map};
ghost use Rattle.egt_board.specs.Prelude.{IsAttacked, White, Black};
ghost use Rattle.std.specs.FinMap as placement;

use crate::board::Board;
use crate::fault::PosFault;
use crate::man::{Man, Side};
use crate::square::Square;
use crate::square_set::SquareSet;
use arrayvec::ArrayVec;
use std::marker::Model;

/// The men on the board, the side to move, and the square that a pawn has just passed (the target).
///
/// Every `Position` is admissible: it has at most four men, one king a side, a target only where the last
/// move may have set it, and the king of the side that waits is not attacked.
#[derive(Clone, Copy)]
pub struct Position {
    board: Board,
    side: Side,
    target: Option<Square>,
    white_king: Square,
    black_king: Square,
}

impl Model for Position {
    ghost use Rattle.egt_board.specs.Setup.{Setup, setup_code};

    ghost Value = { Setup };

    ghost coded = { setup_code };

    ghost use Rattle.egt_board.specs.Position.{shown, IsWhole, fields_of, fields_of-shown};

    ghost view = { shown };

    ghost invariant = { IsWhole };

    ghost inverse = { fields_of };

    ghost inverse_ok = { fields_of-shown };
}

impl Position {
    ghost use Rattle.egt_board.specs.Setup.{IsAdmissible, IsKingOn};
    ghost use Rattle.egt_board.specs.Placement.{IsOccupiedBy};
    ghost use Rattle.egt_board.specs.SquareSet.{Has, size_of};
    ghost use Rattle.egt_board.specs.Listed.{setup_of, man_entry, FitsBoard, IsFirstFault};

    /// The position with these men, in whatever order, that side to move and that target.
    ///
    /// # Errors
    ///
    /// The first of these that holds: `MenCount` where there are more than four men or two on one square;
    /// `KingCount` where a side has not one king; `PawnRank` where a pawn stands on the first rank or the
    /// last; `EpMismatch` where the last move cannot have set the target; `WaitingInCheck` where the king of
    /// the side that waits is attacked.
    pub fn new(
        men: &[(Man, Square)],
        side: Side,
        target: Option<Square>,
    ) -> Result<Position, PosFault>
        ensures setup { IfOk result (λ p. p ≡ setup_of men.now side target) }
        ensures admits { IsOk result ↔ (FitsBoard men.now × IsAdmissible (setup_of men.now side target)) }
        ensures fault { IfErr result (λ fault. IsFirstFault fault men.now (setup_of men.now side target)) }
    {
        let Some(board) = Board::of_men(men) else {
            return Err(PosFault::MenCount);
        };
        let Some(white_king) = board.king(Side::White) else {
            return Err(PosFault::KingCount);
        };
        let Some(black_king) = board.king(Side::Black) else {
            return Err(PosFault::KingCount);
        };
        if !board.pawns_fit() {
            return Err(PosFault::PawnRank);
        }
        if let Some(square) = target {
            if !board.is_target(side, square) {
                return Err(PosFault::EpMismatch);
            }
        }
        let waiting = match side {
            Side::White => black_king,
            Side::Black => white_king,
        };
        if board.is_in_check(waiting, side.other()) {
            return Err(PosFault::WaitingInCheck);
        }
        Ok(Position {
            board,
            side,
            target,
            white_king,
            black_king,
        })
    }

    /// The man on the square.
    pub fn at(&self, square: Square) -> Option<Man>
        ensures { result ≡ placement.get self.now.men square }
    {
        self.board.at(square)
    }

    /// The side to move.
    pub fn side(&self) -> Side
        ensures side { result ≡ self.now.side }
        ensures admissible { IsAdmissible self.now }
    {
        self.side
    }

    /// The square that a pawn has just passed, where it advanced two squares in the last move.
    pub fn target(&self) -> Option<Square>
        ensures { result ≡ self.now.target }
    {
        self.target
    }

    /// The men and their squares, in order of square.
    pub fn men(&self) -> ArrayVec<(Man, Square), 4>
        ensures { result.items ≡ map man_entry (placement.entries self.now.men) }
    {
        let mut men = ArrayVec::new();
        let mut rest = self.board.occupied();
        while let Some(square) = rest.pop_first() {
            let man = self.board.at(square).unwrap();
            men.push((man, square));
        }
        men
    }

    /// The men on the board.
    pub fn board(&self) -> &Board
        ensures { result.now ≡ self.now.men }
    {
        &self.board
    }

    /// The squares of that side's men, of which the other side's king leaves at most three.
    pub fn of(&self, side: Side) -> SquareSet
        ensures held { (t : ℕ) → Has result t ↔ IsOccupiedBy self.now.men t side }
        ensures few { size_of result ≤ 3 }
    {
        self.board.of(side)
    }

    /// The square of that side's king.
    pub fn king(&self, side: Side) -> Square
        ensures { IsKingOn self.now.men side result }
    {
        match side {
            Side::White => self.white_king,
            Side::Black => self.black_king,
        }
    }

    /// The position with this board, side to move and target, which the caller knows to be admissible.
    pub fn admitted(board: Board, side: Side, target: Option<Square>) -> Position
        requires { IsAdmissible (record { men = board; side = side; target = target }) }
        ensures { result ≡ record { men = board; side = side; target = target } }
    {
        let white_king = board.king(Side::White).unwrap();
        let black_king = board.king(Side::Black).unwrap();
        Position {
            board,
            side,
            target,
            white_king,
            black_king,
        }
    }

    /// The position with this board, side to move and target, and with its kings on these squares, which the caller
    /// knows to be admissible.
    pub fn with_kings(
        board: Board,
        side: Side,
        target: Option<Square>,
        white_king: Square,
        black_king: Square,
    ) -> Position
        requires admissible { IsAdmissible (record { men = board; side = side; target = target }) }
        requires white { IsKingOn board White white_king }
        requires black { IsKingOn board Black black_king }
        ensures { result ≡ record { men = board; side = side; target = target } }
    {
        Position {
            board,
            side,
            target,
            white_king,
            black_king,
        }
    }

    /// A copy of the position.
    pub fn copied(&self) -> Position
        ensures same { result ≡ self.now }
        ensures admissible { IsAdmissible self.now }
    {
        let _ = &self.board;
        *self
    }
}

/// Whether a man of that side attacks the square, even if it may not move itself (FIDE Laws of Chess 2023,
/// article 3.1.3).
pub fn attacked(position: &Position, square: Square, side: Side) -> bool
    ensures { IsTrue result ↔ IsAttacked position.now.men square side }
{
    position.board.attacks(square, side)
}
