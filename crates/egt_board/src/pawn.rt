//! How pawns stand and advance: FIDE Laws of Chess 2023, article 3.7.
ghost use Rattle.std.specs.Prelude.{◌≡◌, ℕ, ◌<◌, ◌≤◌, ◌↔◌, IsTrue};
ghost use Rattle.egt_board.specs.Prelude.{pawn_of, facing, forward, ahead, home_rank, last_rank, farthest_advance};
ghost use Rattle.egt_board.specs.Prelude.{Advances, IsBeside, MayStand, PawnsFit, HasPawnBeside, IsFree, rank_of, Has};
ghost use Rattle.egt_board.specs.Prelude.{size_of};

use crate::attack_lines;
use crate::board::Board;
use crate::man::{Kind, Man, Side};
use crate::square::Square;
use crate::square_set::SquareSet;
use crate::step::{Step, Way};

impl Man {
    /// The man who attacks the squares from which this one attacks his: of a pawn the enemy's, of another man the same.
    pub fn facing(self) -> Man
        ensures { result ≡ facing self }
    {
        match self.kind {
            Kind::P => self.side.other().pawn(),
            _ => self,
        }
    }
}

impl Side {
    /// The pawn of this side.
    pub fn pawn(self) -> Man
        ensures { result ≡ pawn_of self }
    {
        Man {
            side: self,
            kind: Kind::P,
        }
    }

    /// One square forward: up the ranks for White, down for Black.
    fn forward(self) -> Step
        ensures { result ≡ forward self }
    {
        let ranks = match self {
            Side::White => Way::Up,
            Side::Black => Way::Down,
        };
        Step {
            files: Way::Still,
            wide: 0,
            ranks,
            high: 1,
        }
    }

    /// The rank on which this side's pawns begin, from 0: 1 for White, 6 for Black.
    fn home_rank(self) -> u8
        ensures { result ≡ home_rank self }
    {
        match self {
            Side::White => 1,
            Side::Black => 6,
        }
    }

    /// The rank on which this side's pawns are promoted, from 0: 7 for White, 0 for Black.
    pub fn last_rank(self) -> u8
        ensures { result ≡ last_rank self }
    {
        match self {
            Side::White => 7,
            Side::Black => 0,
        }
    }
}

impl Square {
    /// The square one forward for that side, of a square that is on neither the first rank nor the last.
    pub fn ahead(self, side: Side) -> Square
        requires not_first { 0 < rank_of self }
        requires not_last { rank_of self < 7 }
        ensures { result ≡ ahead side self }
    {
        match side {
            Side::White => Square::at(self.number() + 8),
            Side::Black => Square::at(self.number() - 8),
        }
    }
}

/// How many squares a pawn of that side on `from` advances at most.
fn farthest_advance(side: Side, from: Square) -> u8
    ensures value { result ≡ farthest_advance side from }
    ensures few { result ≤ 2 }
{
    if from.rank() == side.home_rank() {
        2
    } else {
        1
    }
}

/// Whether the man may stand on the square: a pawn on no square of the first rank or the last.
fn may_stand(man: Man, square: Square) -> bool
    ensures { IsTrue result ↔ MayStand man square }
{
    man.kind != Kind::P || (0 < square.rank() && square.rank() < 7)
}

/// The squares beside the square: on its rank, on the next file.
pub fn squares_beside(square: Square) -> SquareSet
    ensures { (t : ℕ) → Has result t ↔ IsBeside square t }
{
    let number = square.number();
    let mut squares = SquareSet::EMPTY;
    if square.file() > 0 {
        squares = squares.with(Square::at(number - 1));
    }
    if square.file() < 7 {
        squares = squares.with(Square::at(number + 1));
    }
    squares
}

impl Board {
    /// The squares to which a pawn of that side on `from` advances.
    pub fn advances(&self, side: Side, from: Square) -> SquareSet
        ensures advances { (t : ℕ) → Has result t ↔ Advances (IsFree self.now) side from t }
        ensures few { size_of result ≤ 2 }
    {
        let occupied = self.occupied();
        attack_lines::ride(from, side.forward(), farthest_advance(side, from), occupied).difference(
            occupied,
        )
    }

    /// Whether no pawn stands on the first rank or the last.
    pub fn pawns_fit(&self) -> bool
        ensures { IsTrue result ↔ PawnsFit self.now }
    {
        let mut rest = self.occupied();
        while let Some(square) = rest.pop_first() {
            let man = self.at(square).unwrap();
            if !may_stand(man, square) {
                return false;
            }
        }
        true
    }

    /// Whether a pawn of that side stands beside the square: on its rank, on the next file.
    pub fn has_pawn_beside(&self, side: Side, square: Square) -> bool
        ensures { IsTrue result ↔ HasPawnBeside self.now side square }
    {
        let pawn = Some(side.pawn());
        if square.file() > 0 && self.at(Square::at(square.number() - 1)) == pawn {
            return true;
        }
        square.file() < 7 && self.at(Square::at(square.number() + 1)) == pawn
    }
}
