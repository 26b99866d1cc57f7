//! All men of a position, and where they stand after a move, with no board.
ghost use Rattle.std.specs.Prelude.{◌≡◌, ◌≢◌, true, Some, None};
ghost use Rattle.egt_moves.specs.Prelude.{Setup, IsAdmissible, AreMenOf, entry_after, square_after, Leads};
ghost use Rattle.egt_moves.specs.Prelude.{is_two_ranks, Move};

use crate::chess_move::Move;
use crate::promotion::arriving;
use egt_board::{Kind, Man, Position, Side, Square};

/// The kings' squares, the men beside the kings, in whatever order, and the side to move.
#[derive(Clone, Copy)]
pub struct Men {
    pub white: Square,
    pub black: Square,
    pub first: Option<(Man, Square)>,
    pub other: Option<(Man, Square)>,
    pub side: Side,
}

/// Where the man of the entry stands after the move, as what it promotes to; he is gone where another arrives on his
/// square.
#[inline(always)]
fn entry_after(entry: &Option<(Man, Square)>, chess_move: &Move) -> Option<(Man, Square)>
    ensures { result ≡ entry_after entry.now chess_move.now }
{
    let Some((man, square)) = entry else {
        return None;
    };
    if *square == chess_move.from {
        return Some((arriving(*man, chess_move.promo), chess_move.to));
    }
    if *square == chess_move.to {
        return None;
    }
    Some((*man, *square))
}

/// Where the king on the square stands after the move: no king is taken.
#[inline(always)]
fn square_after(square: Square, chess_move: &Move) -> Square
    ensures { result ≡ square_after square chess_move.now }
{
    if square == chess_move.from {
        chess_move.to
    } else {
        square
    }
}

impl Men {
    /// The men of the position.
    pub fn of(position: &Position) -> Men
        ensures { AreMenOf position.now result }
    {
        let _side = position.side();
        let (one, other) = position.board().non_kings();
        Men {
            white: position.king(Side::White),
            black: position.king(Side::Black),
            first: one,
            other,
            side: position.side(),
        }
    }

    /// The men after the move, where it is legal and takes no pawn in passing: who stood where it arrives is gone.
    pub fn after(&self, chess_move: &Move) -> Men
        ensures { (p q : Setup) → IsAdmissible p → AreMenOf p self.now → Leads p chess_move.now q →
            p.target ≢ Some chess_move.now.to → AreMenOf q result }
    {
        Men {
            white: square_after(self.white, chess_move),
            black: square_after(self.black, chess_move),
            first: entry_after(&self.first, chess_move),
            other: entry_after(&self.other, chess_move),
            side: self.side.other(),
        }
    }
}

/// Whether two ranks lie between the squares.
fn is_two_ranks(from: Square, to: Square) -> bool
    ensures { result ≡ is_two_ranks from to }
{
    to.rank() == from.rank() + 2 || from.rank() == to.rank() + 2
}

/// Whether a legal move between the squares neither takes a pawn in passing nor lets a pawn be taken so: then the men
/// tell the position that it leads to.
pub fn is_without_en_passant(position: &Position, from: Square, to: Square) -> bool
    ensures { result ≡ true → (m : Move) (q : Setup) → m.from ≡ from → m.to ≡ to → Leads position.now m q →
        (position.now.target ≢ Some to) × (q.target ≡ None) }
{
    if position.target() == Some(to) {
        return false;
    }
    if !is_two_ranks(from, to) {
        return true;
    }
    match position.at(from) {
        Some(man) => man.kind != Kind::P,
        None => false,
    }
}
