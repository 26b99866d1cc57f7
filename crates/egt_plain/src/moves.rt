//! The moves of the first six classes (FIDE Laws of Chess 2023, articles 3.2 to 3.9).
use crate::code::{PlainPosition, rank};
use crate::steps::{ALL_STEPS, stepped, steps_of};
use arrayvec::ArrayVec;
use egt_board::Kind;

/// What a pawn becomes.
const PROMOTIONS: [Kind; 4] = [Kind::Q, Kind::R, Kind::B, Kind::N];

/// What a move leads to, if it leaves no king in check, and whether it captures or a pawn makes it.
#[derive(Clone, Copy, Default)]
pub struct Successor {
    pub position: PlainPosition,
    pub zeroes: bool,
}

/// At most eight moves of a king and 27 of a queen.
pub type Successors = ArrayVec<Successor, 40>;

impl PlainPosition {
    /// Whether a piece gets from the one square to the other in a direction, past free squares.
    fn goes(self, from: u8, step: (u8, u8), times: u8, to: u8) -> bool {
        let mut at = from;
        for _ in 0..times {
            match stepped(at, step) {
                Some(next) if next == to => return true,
                Some(next) if !self.is_occupied(next) => at = next,
                _ => return false,
            }
        }
        false
    }

    /// Whether the third man attacks the black king.
    pub fn checks_black(self) -> bool {
        match self.third {
            Some((Kind::P, square)) => {
                stepped(square, (1, 1)) == Some(self.black_king)
                    || stepped(square, (255, 1)) == Some(self.black_king)
            }
            Some((kind, square)) => {
                let (steps, times) = steps_of(kind);
                steps
                    .iter()
                    .any(|step| self.goes(square, *step, times, self.black_king))
            }
            None => false,
        }
    }

    /// All that moves lead to, without asking whether they leave a king in check: those that do are no positions.
    pub fn successors(self) -> Successors {
        let mut list = ArrayVec::new();
        if self.black_moves {
            self.move_black_king(&mut list);
        } else {
            self.move_white_king(&mut list);
            match self.third {
                Some((Kind::P, square)) => self.move_pawn(square, &mut list),
                Some((kind, square)) => self.move_piece(kind, square, &mut list),
                None => {}
            }
        }
        list
    }

    fn move_black_king(self, list: &mut Successors) {
        for &step in &ALL_STEPS {
            if let Some(to) = stepped(self.black_king, step) {
                let takes = self.third.is_some_and(|(_, square)| square == to);
                let position = PlainPosition {
                    black_king: to,
                    third: if takes { None } else { self.third },
                    black_moves: false,
                    ..self
                };
                add(list, position, takes);
            }
        }
    }

    fn move_white_king(self, list: &mut Successors) {
        for &step in &ALL_STEPS {
            if let Some(to) = stepped(self.white_king, step)
                && !self.is_occupied(to)
            {
                let position = PlainPosition {
                    white_king: to,
                    black_moves: true,
                    ..self
                };
                add(list, position, false);
            }
        }
    }

    /// The position after the third man went to a square and became that kind.
    fn with_third(self, kind: Kind, square: u8) -> PlainPosition {
        PlainPosition {
            third: Some((kind, square)),
            black_moves: true,
            ..self
        }
    }

    fn move_piece(self, kind: Kind, square: u8, list: &mut Successors) {
        let (steps, times) = steps_of(kind);
        for step in steps {
            let mut at = square;
            for _ in 0..times {
                match stepped(at, *step) {
                    Some(next) if !self.is_occupied(next) => at = next,
                    _ => break,
                }
                add(list, self.with_third(kind, at), false);
            }
        }
    }

    fn move_pawn(self, square: u8, list: &mut Successors) {
        let Some(next) = stepped(square, (0, 1)) else {
            return;
        };
        if self.is_occupied(next) {
            return;
        }
        if rank(next) == 7 {
            for &kind in &PROMOTIONS {
                add(list, self.with_third(kind, next), true);
            }
            return;
        }
        add(list, self.with_third(Kind::P, next), true);
        if rank(square) == 1
            && let Some(far) = stepped(next, (0, 1))
            && !self.is_occupied(far)
        {
            add(list, self.with_third(Kind::P, far), true);
        }
    }
}

/// Adds what a move leads to. There is room for all.
fn add(list: &mut Successors, position: PlainPosition, zeroes: bool) {
    let _ = list.try_push(Successor { position, zeroes });
}
