//! Positions of the first six classes, and a code for each.
use egt_board::Kind;

/// The man that White has beside the king in the classes 0 to 5: KK, KQK, KRK, KBK, KNK and KPK.
pub const THIRD: [Option<Kind>; 6] = [
    None,
    Some(Kind::Q),
    Some(Kind::R),
    Some(Kind::B),
    Some(Kind::N),
    Some(Kind::P),
];

/// The men on their squares, White having the third man if there is one, and the side to move. Squares are numbers
/// below 64.
#[derive(Clone, Copy, Default)]
pub struct PlainPosition {
    pub white_king: u8,
    pub black_king: u8,
    pub third: Option<(Kind, u8)>,
    pub black_moves: bool,
}

/// How many codes a class has, by the man beside the white king: a digit of 64 for each man and one of 2 for the side
/// to move.
pub fn code_count(third: Option<Kind>) -> usize {
    match third {
        Some(_) => 64 * 64 * 64 * 2,
        None => 64 * 64 * 2,
    }
}

/// The file, from 0.
pub(crate) fn file(square: u8) -> u8 {
    square % 8
}

/// The rank, from 0.
pub(crate) fn rank(square: u8) -> u8 {
    square / 8
}

/// Whether a king on the one square attacks the other, or stands there.
pub(crate) fn touch(one: u8, other: u8) -> bool {
    file(one).abs_diff(file(other)) <= 1 && rank(one).abs_diff(rank(other)) <= 1
}

/// Whether the man may stand there: a pawn neither on the first rank nor on the last.
fn may_stand(kind: Kind, square: u8) -> bool {
    kind != Kind::P || (rank(square) != 0 && rank(square) != 7)
}

impl PlainPosition {
    /// The number whose digits are the squares of the white king, the black king and the third man, and the side to
    /// move.
    pub fn code(self) -> usize {
        let kings = 64 * usize::from(self.white_king) + usize::from(self.black_king);
        let men = match self.third {
            Some((_, square)) => 64 * kings + usize::from(square),
            None => kings,
        };
        2 * men + usize::from(self.black_moves)
    }

    /// The men and the side of a code, with this man beside the white king.
    pub fn of_code(third: Option<Kind>, code: usize) -> PlainPosition {
        let black_moves = code % 2 == 1;
        let men = code / 2;
        let (kings, third) = match third {
            Some(kind) => (men / 64, Some((kind, (men % 64) as u8))),
            None => (men, None),
        };
        PlainPosition {
            white_king: (kings / 64 % 64) as u8,
            black_king: (kings % 64) as u8,
            third,
            black_moves,
        }
    }

    /// Whether the square has a man.
    pub(crate) fn is_occupied(self, square: u8) -> bool {
        square == self.white_king
            || square == self.black_king
            || self.third.is_some_and(|(_, stands)| stands == square)
    }

    /// Whether it is a position: the kings do not touch, the third man has a square to itself where it may stand, and
    /// the black king is not attacked with White to move.
    pub fn is_position(self) -> bool {
        if touch(self.white_king, self.black_king) {
            return false;
        }
        match self.third {
            Some((kind, square)) => {
                square != self.white_king
                    && square != self.black_king
                    && may_stand(kind, square)
                    && (self.black_moves || !self.checks_black())
            }
            None => true,
        }
    }
}
