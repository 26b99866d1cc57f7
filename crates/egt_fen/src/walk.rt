//! A placement read from its front.
ghost use Rattle.std.specs.Prelude.{ℕ, ◌≡◌, ◌+◌, ◌*◌, ◌<◌, ◌≤◌, length};

use crate::letter::man_of;
use arrayvec::ArrayVec;
use egt_board::{Man, Square};

/// The men so far, and the next square. Its file is 8 where a rank is full.
#[derive(Drop)]
pub struct Walk {
    men: ArrayVec<(Man, Square), 64>,
    rank: u8,
    file: u8,
    ghost on_board: { (rank < 8) × (file ≤ 8) },
    ghost room: { length men.items + 8 * rank ≤ 56 + file },
}

impl Walk {
    ghost use Rattle.std.specs.Prelude.{List, [], ◌∷◌, Some};
    ghost use Rattle.std.specs.Option.{option_map, option_and_then};
    ghost use Rattle.egt_fen.specs.Walk.{men_left};
    ghost use Rattle.egt_fen.specs.Walked.{walked};

    /// The walk before the first byte.
    pub fn new() -> Walk
        ensures { (rest : List ℕ) → walked result rest ≡ men_left rest 7 0 }
    {
        Walk {
            men: ArrayVec::new(),
            rank: 7,
            file: 0,
        }
    }

    /// Takes the next byte; `None` where it may not stand there.
    pub fn step(&mut self, byte: u8) -> Option<()>
        ensures { (rest : List ℕ) → walked self.old (byte ∷ rest) ≡ option_and_then (λ _. walked self.new rest) result }
    {
        match byte {
            b'/' => {
                if self.file != 8 || self.rank == 0 {
                    return None;
                }
                self.rank -= 1;
                self.file = 0;
            }
            b'1'..=b'8' => {
                let width = byte - b'0';
                if width > 8 - self.file {
                    return None;
                }
                self.file += width;
            }
            _ => {
                let man = man_of(byte)?;
                if self.file == 8 {
                    return None;
                }
                let square = Square::new(8 * self.rank + self.file).unwrap();
                self.men.push((man, square));
                self.file += 1;
            }
        }
        Some(())
    }

    /// The men, where the last square is behind; else `None`.
    pub fn finish(self) -> Option<ArrayVec<(Man, Square), 64>>
        ensures { option_map (λ men. men.items) result ≡ walked self [] }
    {
        let Walk { men, rank, file } = self;
        if rank == 0 && file == 8 {
            Some(men)
        } else {
            None
        }
    }
}
