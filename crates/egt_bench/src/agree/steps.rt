//! Where the legal moves of a position lead, played one by one.
use arrayvec::ArrayVec;
use egt_board::{Kind, Man, Position};
use egt_class::{Class, of};
use egt_index::index;
use egt_moves::{Move, legal_moves, play};

/// The class and the index of what a move leads to, and whether the move is a capture or one of a pawn.
#[derive(Clone, Copy, Default)]
pub struct Step {
    pub class: Class,
    pub index: u32,
    pub zeroes: bool,
}

/// Whether the move is a capture or one of a pawn.
fn zeroes(position: &Position, chosen: &Move) -> bool {
    let is_pawn = |man: Man| man.kind == Kind::P;
    position.at(chosen.to).is_some() || position.at(chosen.from).is_some_and(is_pawn)
}

/// Where each legal move leads.
pub fn steps(position: &Position) -> ArrayVec<Step, 64> {
    let mut list = ArrayVec::new();
    let moves = legal_moves(position);
    for chosen in moves.as_slice() {
        if let Some(next) = play(position, *chosen) {
            let (class, _) = of(&next);
            let _ = list.try_push(Step {
                class,
                index: index(class, &next),
                zeroes: zeroes(position, chosen),
            });
        }
    }
    list
}
