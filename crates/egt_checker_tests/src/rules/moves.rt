//! Moves, what they lead to, checkmate and stalemate.
mod pins;

use crate::asserts::{require, require_at};
use crate::rules::men::{move_of, position_of, same};
use egt_board::Position;
use egt_moves::{Move, Standing, legal_moves, play, standing, zeroing};

/// A position and a move in it.
fn read(words: &str, text: &str) -> Option<(Position, Move)> {
    Some((position_of(words)?, move_of(text.as_bytes())?))
}

/// Whether the move is legal, and leads to the position of these words.
fn leads(words: &str, text: &str, after: &str) -> Option<bool> {
    let (position, chess_move) = read(words, text)?;
    let led = play(&position, chess_move)?;
    let listed = legal_moves(&position).as_slice().contains(&chess_move);
    Some(listed && same(&led, &position_of(after)?))
}

/// Whether the move is not legal.
fn is_refused(words: &str, text: &str) -> Option<bool> {
    let (position, chess_move) = read(words, text)?;
    let listed = legal_moves(&position).as_slice().contains(&chess_move);
    Some(!listed && play(&position, chess_move).is_none())
}

fn stands(words: &str) -> Option<Standing> {
    Some(standing(&position_of(words)?))
}

/// Positions, moves and what they lead to.
const LED: [(&str, &str, &str); 10] = [
    // A mate: a8 is attacked, and b6 guards a7 and b7.
    ("Kb6 Qd1 ka8 w", "d1d8", "Kb6 Qd8 ka8 b"),
    // A pawn that has just come from e2 is taken in passing.
    ("Kh1 Pe4 kd5 pd4 b e3", "d4e3", "Kh1 kd5 pe3 w"),
    // A move later it can no longer be taken.
    ("Kh1 Pe4 kd5 pd4 b e3", "d5c5", "Kh1 Pe4 kc5 pd4 w"),
    ("Kh1 Pe4 kc5 pd4 w", "h1g1", "Kg1 Pe4 kc5 pd4 b"),
    ("Kg1 Pe4 kc5 pd4 b", "d4d3", "Kg1 Pe4 kc5 pd3 w"),
    // An advance of two squares sets the target, one of one square does not.
    ("Ka1 Pa2 kh7 w", "a2a4", "Ka1 Pa4 kh7 b a3"),
    ("Ka1 Pa2 kh7 w", "a2a3", "Ka1 Pa3 kh7 b"),
    ("Ka1 Pa7 kh7 w", "a7a8n", "Ka1 Na8 kh7 b"),
    ("Ka1 Pa7 kh7 w", "a7a8q", "Ka1 Qa8 kh7 b"),
    ("Ka1 Pa7 kh7 w", "a1b2", "Kb2 Pa7 kh7 b"),
];

#[test]
fn moves_lead_on(rt: HostRuntime) {
    for &(words, text, after) in &LED {
        require_at(&rt, leads(words, text, after) == Some(true), (words, text));
    }
}

/// Positions, and moves that are not legal in them.
const REFUSED: [(&str, &str); 8] = [
    ("Kb6 Qd1 ka8 w", "d1e3"),
    ("Kb6 Qd1 ka8 w", "a8b8"),
    ("Kb6 Qd1 ka8 w", "b6b7"),
    // The king stays in check by the pawn.
    ("Kh1 Pe4 kd5 pd4 b e3", "d4d3"),
    ("Kg1 Pe4 kc5 pd4 b", "d4e3"),
    // From the third rank a pawn advances one square.
    ("Ka1 Pa3 kh7 w", "a3a5"),
    ("Ka1 Pa7 kh7 w", "a7a8"),
    ("Ka1 Pa7 kh7 w", "a7a8k"),
];

#[test]
fn refuses_what_is_not_legal(rt: HostRuntime) {
    for &(words, text) in &REFUSED {
        require_at(&rt, is_refused(words, text) == Some(true), (words, text));
    }
}

#[test]
fn knows_checkmate_and_stalemate(rt: HostRuntime) {
    for &(words, wanted) in &[
        ("Kb6 Qd1 ka8 w", Standing::HasMove),
        ("Kb6 Qd8 ka8 b", Standing::Checkmate),
        // With the queen on d7 the king may go to b8. On c7 she takes that square too, and does not attack a8.
        ("Kb6 Qd7 ka8 b", Standing::HasMove),
        ("Kb6 Qc7 ka8 b", Standing::Stalemate),
    ] {
        require_at(&rt, stands(words) == Some(wanted), words);
    }
}

/// Whether the move is written as it is read here.
fn is_written(text: &str) -> Option<bool> {
    Some(move_of(text.as_bytes())?.text().as_str() == text)
}

#[test]
fn writes_moves(rt: HostRuntime) {
    for &text in &["d1d8", "g7g8q"] {
        require_at(&rt, is_written(text) == Some(true), text);
    }
}

/// Whether these are the position's moves, in order.
fn are_listed(words: &str, texts: &str) -> Option<bool> {
    let list = legal_moves(&position_of(words)?);
    let mut rest = list.as_slice().iter();
    for text in texts.split(' ') {
        if *rest.next()? != move_of(text.as_bytes())? {
            return Some(false);
        }
    }
    Some(rest.next().is_none())
}

#[test]
fn promotes_to_four_kinds(rt: HostRuntime) {
    let texts = "a1b1 a1a2 a1b2 a7a8q a7a8r a7a8b a7a8n";
    require(&rt, are_listed("Ka1 Pa7 kh7 w", texts) == Some(true));
}

fn zeroes(words: &str, text: &str) -> Option<bool> {
    let (position, chess_move) = read(words, text)?;
    Some(zeroing(&position, chess_move))
}

#[test]
fn tells_moves_that_zero(rt: HostRuntime) {
    for &(words, text, wanted) in &[
        ("Ka1 Pa7 kh7 w", "a7a8", true),
        ("Ka1 Pa7 kh7 w", "a1b1", false),
        ("Kh1 Pe4 kd5 pd4 b e3", "d4e3", true),
        // A capture of the queen on d1, and a move to a square of an own man.
        ("Kb6 Qd1 ka8 b", "a8d1", true),
        ("Kb6 Qd1 ka8 w", "b6d1", false),
    ] {
        require_at(&rt, zeroes(words, text) == Some(wanted), (words, text));
    }
}
