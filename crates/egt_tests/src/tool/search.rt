//! Worked texts of the search for mate.
use super::{is_wrong, prints};
use crate::asserts::{require, require_at};
use egt_commands::search_text;
use std::test::Fail;

/// How many plies are searched, and a row: a FEN, and behind the colon what is found, as the line has it before `
/// plies`.
const WORKED: [(u8, &str); 10] = [
    (1, "k7/8/1K6/8/8/8/8/3Q4 b - - 0 1: no mate within 1"),
    (2, "k7/8/1K6/8/8/8/8/3Q4 b - - 0 1: white mates in 2"),
    (1, "k7/8/1K6/8/8/8/8/3Q4 w - - 0 1: white mates in 1"),
    (6, "k7/1Q6/1K6/8/8/8/8/8 b - - 0 1: white mates in 0"),
    (6, "k7/2Q5/8/8/8/8/8/4K3 b - - 0 1: no mate within 6"),
    (2, "8/5KPk/8/8/8/8/8/8 w - - 0 1: no mate within 2"),
    (3, "8/5KPk/8/8/8/8/8/8 w - - 0 1: white mates in 3"),
    // With a target these are mates in 5, by en passant (`MATES`). Stockfish 15.1 sees a draw.
    (6, "k7/8/1K6/2Pp4/8/8/8/8 w - - 0 1: no mate within 6"),
    (6, "7k/8/6K1/4pP2/8/8/8/8 w - - 0 1: no mate within 6"),
    (6, "8/8/8/8/2pP4/1k6/8/K7 b - - 0 1: no mate within 6"),
];

#[test]
fn tells_worked_mates(rt: HostRuntime) -> Result<(), Fail> {
    for &(plies, row) in &WORKED {
        let (fen, found) = row.split_once(": ").unwrap_or((row, ""));
        let line = format!(in rt.alloc(); "{} plies\n", found)?;
        let text = search_text(rt.alloc(), plies, fen.as_bytes())?;
        require_at(&rt, text.as_slice() == line.as_bytes(), row);
    }
    Ok(())
}

/// Mates: the plies to mate, the winner, and the position.
///
/// The distances are those of Stockfish 15.1 (Debian's package), `go depth 34`: a mate in n moves is one in
/// 2n - 1 plies where the side to move mates, and in 2n where the other side does.
const MATES: [(u8, &str, &str); 58] = [
    // Without pawns.
    (1, "white", "5Q2/3N4/8/8/8/8/5K2/7k w - - 0 1"),
    (2, "white", "1k6/8/2K5/8/Q7/8/8/8 b - - 0 1"),
    (2, "white", "8/8/8/8/3N2K1/8/7Q/5k2 b - - 0 1"),
    (2, "black", "q7/8/8/4N3/8/1k6/8/K7 w - - 0 1"),
    (3, "black", "1K6/8/8/1k6/1q6/1N6/8/8 b - - 0 1"),
    (3, "white", "7B/8/8/5K2/8/7k/5R2/8 w - - 0 1"),
    (3, "black", "8/1b6/8/2r5/8/2k5/K7/8 b - - 0 1"),
    (3, "white", "8/5K2/8/7k/8/6Q1/8/8 w - - 0 1"),
    (3, "white", "8/8/8/8/1N4Q1/8/8/1k2K3 w - - 0 1"),
    (4, "white", "7k/8/8/7K/5N2/6Q1/8/8 b - - 0 1"),
    (4, "white", "8/3K1k2/8/6R1/8/2B5/8/8 b - - 0 1"),
    (4, "white", "8/8/8/k1K5/8/4R3/8/8 b - - 0 1"),
    (4, "black", "q7/6N1/8/8/8/3k4/8/3K4 w - - 0 1"),
    (5, "white", "2K5/8/1k6/2R5/4N3/8/8/8 w - - 0 1"),
    (5, "white", "7B/8/8/1B6/6K1/8/8/7k w - - 0 1"),
    (5, "black", "8/1k6/8/1K6/8/4r3/5b2/8 b - - 0 1"),
    (5, "black", "8/5K2/8/6k1/8/7q/8/4N3 b - - 0 1"),
    (5, "white", "8/8/8/3K4/k7/8/1r6/1Q6 w - - 0 1"),
    (5, "white", "8/8/8/8/4B1KR/8/8/5k2 w - - 0 1"),
    (5, "white", "8/Q7/3k4/2N5/2K5/8/8/8 w - - 0 1"),
    (5, "white", "k7/8/8/K1R5/8/8/8/8 w - - 0 1"),
    (6, "white", "5B1R/8/8/8/8/1K6/8/1k6 b - - 0 1"),
    (6, "white", "7k/3Q4/1K6/8/8/8/8/5N2 b - - 0 1"),
    (6, "white", "8/4K2k/5Q2/8/8/8/8/8 b - - 0 1"),
    // Kings and one pawn, kings and two pawns, and kings, a pawn and another man.
    (1, "white", "1k6/3P4/1K6/8/8/8/8/8 w - - 0 1"),
    (2, "white", "7k/1P6/6K1/8/8/8/8/8 b - - 0 1"),
    (3, "white", "8/5KPk/8/8/8/8/8/8 w - - 0 1"),
    (3, "white", "7k/8/2P3K1/8/8/8/8/8 w - - 0 1"),
    (4, "black", "8/8/8/8/8/4p1k1/8/7K w - - 0 1"),
    (5, "white", "8/5P2/8/8/8/7K/8/7k w - - 0 1"),
    (6, "black", "8/8/8/8/8/8/2p2k2/7K w - - 0 1"),
    (6, "white", "8/7P/8/8/8/1K6/8/k7 b - - 0 1"),
    (1, "black", "8/8/8/3P4/8/6k1/3p4/5K2 b - - 0 1"),
    (2, "black", "8/2p5/8/8/8/6k1/4p3/6K1 w - - 0 1"),
    (3, "black", "8/8/8/2k5/K7/1P6/3p4/8 b - - 0 1"),
    (4, "white", "8/2p1P3/8/8/8/8/5K2/7k b - - 0 1"),
    (5, "black", "7K/8/6k1/P7/8/3p4/8/8 b - - 0 1"),
    (5, "black", "6K1/8/6kp/8/8/8/6p1/8 b - - 0 1"),
    (5, "white", "8/1P1p4/8/8/8/1K6/8/k7 w - - 0 1"),
    (6, "black", "8/8/8/7P/8/2k5/K3p3/8 w - - 0 1"),
    (6, "black", "8/8/7p/8/8/5k2/p6K/8 w - - 0 1"),
    (3, "white", "8/4P3/8/5K1k/7r/8/8/8 w - - 0 1"),
    (4, "white", "4k3/6K1/8/2PQ4/8/8/8/8 b - - 0 1"),
    (5, "white", "8/5P2/8/8/4b3/k1K5/8/8 w - - 0 1"),
    (5, "white", "8/8/2P5/8/K7/2R5/8/k7 w - - 0 1"),
    (6, "white", "3k4/R5K1/5P2/8/8/8/8/8 b - - 0 1"),
    // By promotion to a knight.
    (1, "white", "8/1P6/kBK5/8/8/8/8/8 w - - 0 1"),
    (1, "black", "8/8/8/8/8/Kbk5/1p6/8 b - - 0 1"),
    // By promotion to a rook, where a queen would stalemate.
    (3, "white", "8/k1P5/2K5/8/8/8/8/8 w - - 0 1"),
    (3, "black", "8/8/8/8/8/5k2/5p1K/8 b - - 0 1"),
    (3, "white", "2q5/k2P4/2K5/8/8/8/8/8 w - - 0 1"),
    // By a pawn's advance, of one square or of two.
    (1, "white", "7k/5K1p/6P1/8/8/8/8/8 w - - 0 1"),
    (1, "black", "8/8/8/8/8/kp6/p7/K7 b - - 0 1"),
    (1, "white", "8/8/8/5KBk/8/8/6P1/8 w - - 0 1"),
    (1, "black", "8/6p1/8/8/5kbK/8/8/8 b - - 0 1"),
    // By en passant, a pawn's advance and a promotion.
    (5, "white", "k7/8/1K6/2Pp4/8/8/8/8 w - d6 0 1"),
    (5, "white", "7k/8/6K1/4pP2/8/8/8/8 w - e6 0 1"),
    (5, "black", "8/8/8/8/2pP4/1k6/8/K7 b - d3 0 1"),
];

#[test]
fn finds_the_mates_that_an_engine_finds(rt: HostRuntime) -> Result<(), Fail> {
    for &(plies, winner, fen) in &MATES {
        let line = format!(in rt.alloc(); "{} mates in {} plies\n", winner, plies)?;
        let found = search_text(rt.alloc(), 6, fen.as_bytes())?;
        require_at(&rt, found.as_slice() == line.as_bytes(), fen);
    }
    Ok(())
}

#[test]
fn finds_no_mate_sooner_than_an_engine(rt: HostRuntime) -> Result<(), Fail> {
    for &(plies, _, fen) in &MATES {
        if 1 < plies && plies <= 6 {
            let line = format!(in rt.alloc(); "no mate within {} plies\n", plies - 1)?;
            let found = search_text(rt.alloc(), plies - 1, fen.as_bytes())?;
            require_at(&rt, found.as_slice() == line.as_bytes(), fen);
        }
    }
    Ok(())
}

/// Words of so many plies.
const NUMBERS: [&str; 7] = ["0", "1", "2", "3", "4", "5", "6"];

#[test]
fn prints_what_it_tells(rt: HostRuntime) -> Result<(), Fail> {
    for &(plies, row) in &WORKED {
        let number = NUMBERS[usize::from(plies) % NUMBERS.len()];
        let (fen, found) = row.split_once(": ").unwrap_or((row, ""));
        let line = format!(in rt.alloc(); "{} plies\n", found)?;
        let right = prints(&rt, &["search", number, fen], 0, line.as_str(), "") == Some(true);
        require_at(&rt, right, row);
    }
    Ok(())
}

#[test]
fn searches_from_1_to_6_plies(rt: HostRuntime) {
    let fen = "k7/8/1K6/8/8/8/8/3Q4 b - - 0 1";
    for &plies in &["0", "7", "256", "two", "-1"] {
        let right = is_wrong(&rt, &["search", plies, fen]) == Some(true);
        require_at(&rt, right, plies);
    }
    require(&rt, is_wrong(&rt, &["search", "2"]) == Some(true));
    for &(fen, status, out, err) in &[
        ("k7/8/8/8/8/8/8/K7 w - -", 0, "no mate within 2 plies\n", ""),
        ("k7/8/8/8/8/8/8/K7 w -", 1, "", "error fen 1 FieldCount\n"),
    ] {
        let right = prints(&rt, &["search", "2", fen], status, out, err) == Some(true);
        require_at(&rt, right, fen);
    }
}
