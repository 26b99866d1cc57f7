//! Legal moves: those of the product against those that are found by trying each man on each square.
use crate::agree::setup::Setup;
use arrayvec::ArrayVec;
use egt_board::{Kind, Man, Position, Square, SquareSet};
use egt_moves::{Move, Standing, legal_moves, legal_targets, legal_targets_of, play, standing};

/// What a pawn becomes.
const PROMOTIONS: [Kind; 4] = [Kind::Q, Kind::R, Kind::B, Kind::N];

/// Adds the move. There is room for all.
fn push(from: u8, to: u8, promo: Option<Kind>, list: &mut ArrayVec<Move, 64>) {
    if let (Some(from), Some(to)) = (Square::new(from), Square::new(to)) {
        let _ = list.try_push(Move { from, to, promo });
    }
}

/// Adds the move, or one for each man that a pawn becomes.
fn list_to(man: Man, from: u8, to: u8, list: &mut ArrayVec<Move, 64>) {
    if man.kind != Kind::P || (to / 8 != 0 && to / 8 != 7) {
        push(from, to, None, list);
        return;
    }
    for kind in PROMOTIONS {
        push(from, to, Some(kind), list);
    }
}

/// Adds the legal moves of the man.
fn list_from(setup: &Setup, man: Man, from: u8, list: &mut ArrayVec<Move, 64>) {
    let attacked = setup.attacked_from(man, from);
    for to in 0..64u8 {
        if setup.goes(man, from, to, &attacked)
            && !setup.played(from, to, None).is_in_check(man.side)
        {
            list_to(man, from, to, list);
        }
    }
}

/// The legal moves, in order of the square left, then the square arrived at, then the promotion.
fn moves_of(setup: &Setup) -> ArrayVec<Move, 64> {
    let mut list = ArrayVec::new();
    for from in 0..64u8 {
        if let Some(man) = setup.at(from)
            && man.side == setup.side
        {
            list_from(setup, man, from, &mut list);
        }
    }
    list
}

/// Whether the product's position after each of these moves is the plain one.
fn are_played(position: &Position, setup: &Setup, moves: &[Move]) -> bool {
    for chosen in moves {
        let after = setup.played(chosen.from.number(), chosen.to.number(), chosen.promo);
        match play(position, *chosen) {
            Some(next) if after.is_like(&Setup::of(&next)) => {}
            _ => return false,
        }
    }
    true
}

/// Where those of these moves go that leave the square.
fn targets(moves: &[Move], from: Square) -> SquareSet {
    let mut squares = SquareSet::EMPTY;
    for chosen in moves {
        if chosen.from == from {
            squares = squares.with(chosen.to);
        }
    }
    squares
}

/// Whether the product's legal squares from there are those of these moves.
fn are_targets(position: &Position, moves: &[Move], from: Square) -> bool {
    let wanted = targets(moves, from);
    if legal_targets(position, from) != wanted {
        return false;
    }
    match position.at(from) {
        Some(man) if man.side == position.side() => {
            legal_targets_of(position, position.occupancy(), man, from) == wanted
        }
        _ => true,
    }
}

/// Whether the product tells of checkmate and stalemate what the plain moves tell.
fn stands(position: &Position, setup: &Setup, moves: &[Move]) -> bool {
    let wanted = if !moves.is_empty() {
        Standing::HasMove
    } else if setup.is_in_check(setup.side) {
        Standing::Checkmate
    } else {
        Standing::Stalemate
    };
    standing(position) == wanted
}

/// Whether the product's moves of the position are the plain ones, in order, and lead where the plain ones do.
pub fn moves_agree(position: &Position) -> bool {
    let setup = Setup::of(position);
    let moves = moves_of(&setup);
    if legal_moves(position).as_slice() != moves.as_slice() {
        return false;
    }
    for number in 0..64u8 {
        if let Some(from) = Square::new(number)
            && !are_targets(position, moves.as_slice(), from)
        {
            return false;
        }
    }
    are_played(position, &setup, moves.as_slice()) && stands(position, &setup, moves.as_slice())
}
