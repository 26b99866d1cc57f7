//! A plain board: what stands on each of the 64 squares, by number. What the men do is walked out step by step.
use egt_board::{Kind, Man, Position, Side};
use egt_plain::steps::{stepped, steps_of};

/// The men, the side to move, and the square that a pawn has just passed.
#[derive(Clone, Copy)]
pub struct Setup {
    men: [Option<Man>; 64],
    pub side: Side,
    pub target: Option<u8>,
}

/// Whether the square is one of the set.
pub fn has(squares: &[bool; 64], square: u8) -> bool {
    match squares.get(usize::from(square)) {
        Some(is_there) => *is_there,
        None => false,
    }
}

/// The ways in which a pawn captures, by files and ranks; 255 is one back.
const WHITE_PAWN_STEPS: [(u8, u8); 2] = [(1, 1), (255, 1)];

const BLACK_PAWN_STEPS: [(u8, u8); 2] = [(1, 255), (255, 255)];

/// The steps by which a man captures, and how often he may repeat one.
fn capturing_steps(man: Man) -> (&'static [(u8, u8)], u8) {
    match (man.kind, man.side) {
        (Kind::P, Side::White) => (&WHITE_PAWN_STEPS, 1),
        (Kind::P, Side::Black) => (&BLACK_PAWN_STEPS, 1),
        (kind, _) => steps_of(kind),
    }
}

impl Setup {
    /// A board without men.
    pub fn empty(side: Side, target: Option<u8>) -> Setup {
        Setup {
            men: [None; 64],
            side,
            target,
        }
    }

    /// The plain board of a position.
    pub fn of(position: &Position) -> Setup {
        let target = position.target().map(|square| square.number());
        let mut setup = Setup::empty(position.side(), target);
        for placed in position.men().as_slice() {
            setup.put(placed.1.number(), Some(placed.0));
        }
        setup
    }

    /// What stands on the square.
    pub fn at(&self, square: u8) -> Option<Man> {
        match self.men.get(usize::from(square)) {
            Some(man) => *man,
            None => None,
        }
    }

    /// Puts the man on the square, or clears it.
    pub fn put(&mut self, square: u8, man: Option<Man>) {
        if let Some(place) = self.men.get_mut(usize::from(square)) {
            *place = man;
        }
    }

    /// Whether both have the same men on the same squares, the same side to move and the same target.
    pub fn is_like(&self, other: &Setup) -> bool {
        for (one, two) in self.men.iter().zip(&other.men) {
            if *one != *two {
                return false;
            }
        }
        self.side == other.side && self.target == other.target
    }

    /// Adds the squares that a man captures on along a direction: those up to the first that has a man.
    fn walk(&self, from: u8, step: (u8, u8), times: u8, squares: &mut [bool; 64]) {
        let mut at = from;
        for _ in 0..times {
            let Some(next) = stepped(at, step) else {
                return;
            };
            if let Some(place) = squares.get_mut(usize::from(next)) {
                *place = true;
            }
            if self.at(next).is_some() {
                return;
            }
            at = next;
        }
    }

    /// The squares that the man attacks from there (article 3.1.3).
    pub fn attacked_from(&self, man: Man, from: u8) -> [bool; 64] {
        let (steps, times) = capturing_steps(man);
        let mut squares = [false; 64];
        for step in steps {
            self.walk(from, *step, times, &mut squares);
        }
        squares
    }

    /// Whether a man of that side attacks the square.
    fn is_attacked(&self, square: u8, side: Side) -> bool {
        for from in 0..64u8 {
            if let Some(man) = self.at(from)
                && man.side == side
                && has(&self.attacked_from(man, from), square)
            {
                return true;
            }
        }
        false
    }

    /// Whether that side's king is attacked (article 3.9).
    pub fn is_in_check(&self, side: Side) -> bool {
        let king = Man {
            side,
            kind: Kind::K,
        };
        for square in 0..64u8 {
            if self.at(square) == Some(king) && self.is_attacked(square, side.other()) {
                return true;
            }
        }
        false
    }

    /// Whether a pawn of that side advances from the one square to the other (articles 3.7.1 and 3.7.2).
    fn advances(&self, side: Side, from: u8, to: u8) -> bool {
        let (step, first) = match side {
            Side::White => ((0, 1), 1),
            Side::Black => ((0, 255), 6),
        };
        let Some(next) = stepped(from, step) else {
            return false;
        };
        if self.at(next).is_some() {
            return false;
        }
        next == to
            || (from / 8 == first && stepped(next, step) == Some(to) && self.at(to).is_none())
    }

    /// Whether the man goes from the one square, from which he attacks these, to the other, where his king is left
    /// aside.
    pub fn goes(&self, man: Man, from: u8, to: u8, attacked: &[bool; 64]) -> bool {
        if let Some(other) = self.at(to) {
            return other.side != man.side && has(attacked, to);
        }
        if man.kind != Kind::P {
            return has(attacked, to);
        }
        self.advances(man.side, from, to) || (self.target == Some(to) && has(attacked, to))
    }

    /// What the move leads to, by the rules of capture in passing and of promotion (articles 3.7.3.1 to 3.7.3.3).
    pub fn played(&self, from: u8, to: u8, promo: Option<Kind>) -> Setup {
        let mut after = *self;
        let Some(man) = self.at(from) else {
            return after;
        };
        let is_pawn = man.kind == Kind::P;
        if is_pawn && self.target == Some(to) && to % 8 != from % 8 {
            after.put(from.wrapping_sub(from % 8).wrapping_add(to % 8), None);
        }
        let arrives = match promo {
            Some(kind) => Man {
                side: man.side,
                kind,
            },
            None => man,
        };
        after.put(from, None);
        after.put(to, Some(arrives));
        after.side = man.side.other();
        after.target = if is_pawn && from.abs_diff(to) == 16 {
            Some(from.min(to).wrapping_add(8))
        } else {
            None
        };
        after
    }

    /// Whether a pawn of the side to move may go to the target.
    fn has_taker(&self) -> bool {
        let Some(target) = self.target else {
            return false;
        };
        let pawn = Man {
            side: self.side,
            kind: Kind::P,
        };
        for from in 0..64u8 {
            if self.at(from) == Some(pawn) && has(&self.attacked_from(pawn, from), target) {
                return true;
            }
        }
        false
    }

    /// The setup, without a target where no pawn may take there.
    pub fn settled(&self) -> Setup {
        let mut settled = *self;
        if !self.has_taker() {
            settled.target = None;
        }
        settled
    }
}
