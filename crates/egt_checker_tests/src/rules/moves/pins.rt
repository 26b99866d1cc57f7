//! Where a man may go: pins, checks and the answers to them.
use crate::asserts::{require, require_at};
use crate::rules::men::{move_of, position_of, square_of};
use egt_board::SquareSet;
use egt_moves::{legal_moves, legal_targets};

/// The squares of these names.
fn set(names: &str) -> Option<SquareSet> {
    let mut squares = SquareSet::EMPTY;
    for name in names.split(' ') {
        if !name.is_empty() {
            squares = squares.with(square_of(name.as_bytes())?);
        }
    }
    Some(squares)
}

/// Whether these are the squares to which what stands on the square may go.
fn goes(words: &str, from: &str, names: &str) -> Option<bool> {
    let position = position_of(words)?;
    Some(legal_targets(&position, square_of(from.as_bytes())?) == set(names)?)
}

/// Positions, a square, and where the man on it may go.
const PINS: [(&str, &str, &str); 8] = [
    // On the file: rook a4, pinned by a rook on a8.
    ("Ka1 Ra4 kh7 ra8 w", "a4", "a2 a3 a5 a6 a7 a8"),
    // On the rank: a bishop or a knight on c1, pinned by a rook on h1.
    ("Ka1 Bc1 kh7 rh1 w", "c1", ""),
    ("Ka1 Nc1 kh7 rh1 w", "c1", ""),
    // On the diagonal: queen c3, pinned by a bishop on f6.
    ("Ka1 Qc3 kh7 bf6 w", "c3", "b2 d4 e5 f6"),
    // Two men between, the other being the enemy's king on a5: the knight on a3 is free.
    ("Ka1 Na3 ka5 ra8 w", "a3", "b1 c2 c4 b5"),
    // A pawn on e2, pinned by a rook on e8, advances.
    ("Ke1 Pe2 ka8 re8 w", "e2", "e3 e4"),
    // A pawn on f2 takes the bishop on g3 that pins it, and one on h4 it cannot take.
    ("Ke1 Pf2 ka8 bg3 w", "f2", "g3"),
    ("Ke1 Pf2 ka8 bh4 w", "f2", ""),
];

#[test]
fn pinned_men_keep_to_their_line(rt: HostRuntime) {
    for &(words, from, names) in &PINS {
        require_at(&rt, goes(words, from, names) == Some(true), words);
    }
}

const CHECKS: [(&str, &str, &str); 7] = [
    // King e4, checked along the file by a rook on e8: it may not step back to e3.
    ("Ke4 Na1 kh8 re8 w", "e4", "d3 f3 d4 f4 d5 f5"),
    // King a8, checked by a rook on h8: the pawn on g7 stands between on g8 or takes it.
    ("Ka8 Pg7 ka1 rh8 w", "g7", "g8 h8"),
    // King a1, checked by a rook on a4: the rook on h8 may not go behind it, to a8, but the one on h4 takes it.
    ("Ka1 Rh8 kg6 ra4 w", "h8", ""),
    ("Ka1 Rh4 kg7 ra4 w", "h4", "a4"),
    // No move leaves an empty square, or one of the enemy's.
    ("Ka1 Rh4 kg7 ra4 w", "a4", ""),
    ("Ka1 Rh4 kg7 ra4 w", "b1", ""),
    // King e1, checked by a rook on e8 and a knight on d3.
    ("Ke1 re8 nd3 ka8 w", "e1", "d1 f1 d2"),
];

/// Whether the position has the move.
fn has_move(words: &str, text: &str) -> Option<bool> {
    let position = position_of(words)?;
    let chess_move = move_of(text.as_bytes())?;
    Some(legal_moves(&position).as_slice().contains(&chess_move))
}

#[test]
fn checks_are_answered(rt: HostRuntime) {
    for &(words, from, names) in &CHECKS {
        require_at(&rt, goes(words, from, names) == Some(true), (words, from));
    }
    require(&rt, has_move("Ka8 Pg7 ka1 rh8 w", "g7g8n") == Some(true));
}

const PASSING: [(&str, &str, &str); 6] = [
    // Kings e1 and e8. The pawn on e5 takes the one on d5, on d6.
    ("Ke1 Pe5 ke8 pd5 w d6", "e5", "d6 e6"),
    // The pawn on d5 checks the king on c4: the pawn on e5 takes it, and does not advance.
    ("Kc4 Pe5 kh8 pd5 w d6", "e5", "d6"),
    ("Kc4 Pe5 kh8 pd5 w d6", "c4", "b3 c3 d3 b4 d4 b5 c5 d5"),
    // Both pawns leave the rank between the kings on a5 and h5, which check nobody along it: that takes a fifth man.
    ("Ka5 Pb5 kh5 pc5 w c6", "b5", "b6 c6"),
    // A pawn on f5 is not beside the one on d5, and a king goes to the target as to any square.
    ("Kc7 Pf5 kh8 pd5 w d6", "f5", "f6"),
    ("Kc7 Pf5 kh8 pd5 w d6", "c7", "b6 c6 d6 b7 d7 b8 c8 d8"),
];

#[test]
fn pawns_take_in_passing(rt: HostRuntime) {
    for &(words, from, names) in &PASSING {
        require_at(&rt, goes(words, from, names) == Some(true), (words, from));
    }
}
