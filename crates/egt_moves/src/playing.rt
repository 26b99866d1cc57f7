//! Playing a move.
ghost use Rattle.std.specs.Prelude.{◌≡◌, IfSome, IfNone};
ghost use Rattle.egt_moves.specs.Prelude.{IsInCheck, Stands, Setup, IsAdmissible, IsKingOn, Goes, Leads, IsLegal};
ghost use Rattle.egt_moves.specs.Prelude.{men_after, after, FitsPromotion, promotes};

use crate::chess_move::Move;
use crate::going::{moved, passed};
use crate::promotion::fits_promotion;
use crate::targets::legal_goals;
use egt_board::{Kind, Man, Position, Side, Square};

/// The square of that side's king after the man has made the move.
fn king_after_move(position: &Position, man: Man, chess_move: &Move, side: Side) -> Square
    requires stands { Stands position.now.men chess_move.now.from man }
    requires mine { man.side ≡ position.now.side }
    requires goes { Goes position.now man chess_move.now.from chess_move.now.to }
    requires promotion { FitsPromotion (promotes man chess_move.now.to) chess_move.now.promo }
    requires admissible { IsAdmissible position.now }
    ensures { IsKingOn (men_after position.now man chess_move.now) side result }
{
    let king = position.king(side);
    if man.side == side {
        match man.kind {
            Kind::K => chess_move.to,
            _ => king,
        }
    } else {
        king
    }
}

/// The position after the man has made the move, which is legal.
fn played(position: &Position, man: Man, chess_move: &Move) -> Position
    requires stands { Stands position.now.men chess_move.now.from man }
    requires mine { man.side ≡ position.now.side }
    requires goes { Goes position.now man chess_move.now.from chess_move.now.to }
    requires promotion { FitsPromotion (promotes man chess_move.now.to) chess_move.now.promo }
    requires admissible { IsAdmissible position.now }
    requires safe { ¬ IsInCheck (men_after position.now man chess_move.now) position.now.side }
    ensures { result ≡ after position.now man chess_move.now }
{
    let board = moved(position, man, *chess_move);
    let target = passed(man, chess_move.from, chess_move.to);
    let white_king = king_after_move(position, man, chess_move, Side::White);
    let black_king = king_after_move(position, man, chess_move, Side::Black);
    Position::with_kings(board, man.side.other(), target, white_king, black_king)
}

/// The position that the move leads to; `None` where the move is not legal.
pub fn play(position: &Position, chess_move: Move) -> Option<Position>
    ensures leads { IfSome result (λ q. Leads position.now chess_move q) }
    ensures illegal { IfNone result ((q : Setup) → ¬ Leads position.now chess_move q) }
{
    let Move { from, to, promo } = chess_move;
    let man = position.at(from)?;
    if man.side != position.side() {
        return None;
    }
    if !fits_promotion(man, to, promo) {
        return None;
    }
    if !legal_goals(position, position.occupancy(), man, from).contains(to) {
        return None;
    }
    Some(played(position, man, &chess_move))
}

/// The position that the move leads to, which the caller knows to be legal: what `play` answers, without a test.
pub fn play_legal(position: &Position, chess_move: Move) -> Position
    requires { IsLegal position.now chess_move }
    ensures { Leads position.now chess_move result }
{
    let _side = position.side();
    let man = position.at(chess_move.from).unwrap();
    played(position, man, &chess_move)
}
