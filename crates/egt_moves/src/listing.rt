//! The list of legal moves.
ghost use Rattle.std.specs.Prelude.{◌≡◌, ◌+◌, ◌*◌, ◌<◌, ◌≤◌, ◌↔◌, ◌⊎◌};
ghost use Rattle.egt_moves.specs.Prelude.{Contains, array_vec_len, IsOccupancy, Stands, IsLegal, moves_of, IsInOrder};
ghost use Rattle.egt_moves.specs.Prelude.{place_of, FitsPromotion, promotes, most_choices, most_moves, Move};

use crate::chess_move::Move;
use crate::promotion::{OFFICERS, promotes};
use crate::targets::legal_goals;
use arrayvec::ArrayVec;
use egt_board::{Man, Occupancy, Position, Square};

/// Adds the moves of the man from `from` to `to`, in order: one, or one for each man that a pawn may become.
fn push_choices(man: Man, from: Square, to: Square, moves: &mut ArrayVec<Move, 64>)
    requires room { array_vec_len moves.old + most_choices man.kind ≤ 64 }
    requires ordered { IsInOrder moves.old.items }
    requires before { (m : Move) → Contains moves.old.items m → place_of m < (from * 64 + to) * 8 }
    ensures ordered { IsInOrder moves.new.items }
    ensures choices { (m : Move) → Contains moves.new.items m
        ↔ (Contains moves.old.items m ⊎ ((m.from ≡ from) × (m.to ≡ to) × FitsPromotion (promotes man to) m.promo)) }
    ensures few { array_vec_len moves.new ≤ array_vec_len moves.old + most_choices man.kind }
{
    if promotes(man, to) {
        for kind in OFFICERS {
            moves.push(Move {
                from,
                to,
                promo: Some(kind),
            });
        }
    } else {
        moves.push(Move {
            from,
            to,
            promo: None,
        });
    }
}

/// Adds the legal moves of the man on `from`, one of the side to move, in order.
fn push_moves(
    position: &Position,
    occupancy: Occupancy,
    man: Man,
    from: Square,
    moves: &mut ArrayVec<Move, 64>,
)
    requires occupancy { IsOccupancy position.now occupancy }
    requires stands { Stands position.now.men from man }
    requires mine { man.side ≡ position.now.side }
    requires room { array_vec_len moves.old + most_moves man.kind ≤ 64 }
    requires ordered { IsInOrder moves.old.items }
    requires before { (m : Move) → Contains moves.old.items m → place_of m < from * 512 }
    ensures ordered { IsInOrder moves.new.items }
    ensures legal { (m : Move) → Contains moves.new.items m
        ↔ (Contains moves.old.items m ⊎ ((m.from ≡ from) × IsLegal position.now m)) }
    ensures few { array_vec_len moves.new ≤ array_vec_len moves.old + most_moves man.kind }
{
    let mut left = legal_goals(position, occupancy, man, from);
    while let Some(to) = left.pop_first() {
        push_choices(man, from, to, moves);
    }
}

/// The legal moves, in order of the square left, then the square arrived at, then the promotion q, r, b, n: each
/// once. A side of at most
/// three men has at most 64.
pub fn legal_moves(position: &Position) -> ArrayVec<Move, 64>
    ensures legal { (m : Move) → Contains result.items m ↔ IsLegal position.now m }
    ensures ordered { IsInOrder result.items }
    ensures listed { result.items ≡ moves_of position.now }
{
    let side = position.side();
    let occupancy = position.occupancy();
    let mut moves = ArrayVec::new();
    let mut rest = position.of(side);
    while let Some(from) = rest.pop_first() {
        let man = position.at(from).unwrap();
        push_moves(position, occupancy, man, from, &mut moves);
    }
    moves
}
