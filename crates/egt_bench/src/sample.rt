//! Positions drawn at random.
use egt_board::{Kind, Man, Position, Side, Square};
use std::alloc::{AllocError, Global};

/// A sequence of numbers that look random (Marsaglia's xorshift).
#[derive(Drop)]
struct Draw {
    state: u64,
}

impl Draw {
    fn next(&mut self) -> u64 {
        let mut x = self.state;
        x ^= x << 13;
        x ^= x >> 7;
        x ^= x << 17;
        self.state = x;
        x
    }

    fn square(&mut self) -> Square {
        Square::at((self.next() % 64) as u8)
    }
}

/// The man of a letter: White's in capitals, and a king for any other letter than q, r, b, n and p.
fn man_of(letter: u8) -> Man {
    let side = if letter < b'a' {
        Side::White
    } else {
        Side::Black
    };
    let kind = match letter {
        b'Q' | b'q' => Kind::Q,
        b'R' | b'r' => Kind::R,
        b'B' | b'b' => Kind::B,
        b'N' | b'n' => Kind::N,
        b'P' | b'p' => Kind::P,
        _ => Kind::K,
    };
    Man { side, kind }
}

/// At most so many positions with these men on squares drawn at random, either side to move.
pub fn sample(alloc: Global, men: &str, count: u32) -> Result<Vec<Position>, AllocError> {
    let mut draw = Draw {
        state: 88172645463325252,
    };
    let mut positions = Vec::new(alloc);
    for _try in 0..100 * u64::from(count) {
        let mut placed = Vec::new(alloc);
        for letter in men.bytes() {
            placed.push((man_of(letter), draw.square()))?;
        }
        let side = if draw.next() % 2 == 0 {
            Side::White
        } else {
            Side::Black
        };
        if let Ok(position) = Position::new(placed.as_slice(), side, None) {
            if positions.len() < count as usize {
                positions.push(position)?;
            }
        }
    }
    Ok(positions)
}
