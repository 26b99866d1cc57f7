//! Worked positions, whose unmoves are found by hand.
use crate::asserts::require_at;
use crate::rules::men::{position_of, square_of};
use egt_board::Position;
use egt_unmoves::{Unmove, unmoves};

/// Whether the unmove is the row's: the man's square now, its square before, the target before or `-`, and `p` where
/// it is a pawn.
fn is_row(position: &Position, unmove: &Unmove, row: &str) -> Option<bool> {
    let mut words = row.split(' ');
    let now = square_of(words.next()?.as_bytes())?;
    let then = square_of(words.next()?.as_bytes())?;
    let target = match words.next()?.as_bytes() {
        b"-" => None,
        word => Some(square_of(word)?),
    };
    let before = &unmove.before;
    Some(
        position.at(now).is_some()
            && before.at(then) == position.at(now)
            && before.at(now).is_none()
            && position.at(then).is_none()
            && before.side() == position.side().other()
            && before.target() == target
            && unmove.pawn == (words.next() == Some("p")),
    )
}

/// Whether the position's unmoves are these rows, with commas between, in order.
fn are(words: &str, rows: &str) -> Option<bool> {
    let position = position_of(words)?.settle();
    let list = unmoves(&position);
    let mut left = rows.split(',');
    for unmove in list.as_slice() {
        if !is_row(&position, unmove, left.next()?)? {
            return Some(false);
        }
    }
    Some(left.next().is_none())
}

/// Positions and their unmoves.
const UNMOVES: &[(&str, &str)] = &[
    ("Ka1 ka8 w", "a8 a7 -,a8 b7 -,a8 b8 -"),
    // The king may have ignored the pawn that had just come from e2.
    (
        "kd6 pd4 Pe4 Kh1 w",
        "d4 d5 - p,d6 c5 -,d6 c5 e3,d6 d5 -,d6 d5 e3,d6 e5 -,d6 e5 e3,d6 c6 -,d6 c6 e3,\
         d6 e6 -,d6 e6 e3,d6 c7 -,d6 c7 e3,d6 d7 -,d6 d7 e3,d6 e7 -,d6 e7 e3",
    ),
    // A target tells the last move.
    ("kd5 pd4 Pe4 Kh1 b e3", "e4 e2 - p"),
    // Had the pawn come from e2, e3 would be a target now.
    ("kd6 pd4 Pe4 Kh1 b", "h1 g1 -,h1 g2 -,h1 h2 -,e4 e3 - p"),
    // No pawn could take it on e3.
    (
        "kd6 pa7 Pe4 Kh1 b",
        "h1 g1 -,h1 g2 -,h1 h2 -,e4 e2 - p,e4 e3 - p",
    ),
    // The king on e3 bars the way from e2, and e3 itself.
    ("ke3 Pe4 Kh1 b", "h1 g1 -,h1 g2 -,h1 h2 -"),
    // From e3 there is no advance of two squares.
    ("ka8 Pe5 Kh1 b", "h1 g1 -,h1 g2 -,h1 h2 -,e5 e4 - p"),
    // A pawn on its original rank has not moved.
    ("Ka1 Pe2 ka8 b", "a1 b1 -,a1 a2 -,a1 b2 -"),
    ("Ka1 kh8 pa7 w", "h8 g7 -,h8 h7 -,h8 g8 -"),
    // Neither the king nor the rook, along the file, has moved: Black would have been in check already.
    (
        "Ka1 Rb2 kb8 b",
        "b2 a2 -,b2 c2 -,b2 d2 -,b2 e2 -,b2 f2 -,b2 g2 -,b2 h2 -",
    ),
];

#[test]
fn worked_positions(rt: HostRuntime) {
    for &(words, rows) in UNMOVES {
        require_at(&rt, are(words, rows) == Some(true), words);
    }
}
