//! FENs of positions drawn at random.
use crate::sample::sample;
use egt_fen::{Fen, write};
use std::io;

/// How many lines are printed at most.
const LINES: u32 = 20_000;

/// Prints FENs of positions with these men, drawn at random, one a line.
pub fn print_lines(rt: &HostRuntime, men: &str) -> io::Result<()> {
    let positions = sample(rt.alloc(), men, LINES)?;
    for position in positions.as_slice() {
        let fen = Fen {
            position: *position,
            halfmove: 0,
            fullmove: 1,
        };
        let Ok(text) = write(rt.alloc(), &fen) else {
            return println!(rt; "no memory");
        };
        let Ok(text) = String::from_utf8(text) else {
            return println!(rt; "no text");
        };
        println!(rt; "{text}")?;
    }
    Ok(())
}
