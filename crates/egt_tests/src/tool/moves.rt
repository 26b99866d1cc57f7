//! Legal moves, as they are printed; what the program makes of wrong words, and of streams that fail.
use super::{fails, has_lines, prints, run_failing, run_on};
use crate::asserts::{require, require_at};
use egt_commands::{MovesFault, moves_text};
use egt_fen::FenFault;
use std::alloc::Global;
use std::test::Fail;

/// Positions without pawns, and their legal moves in order: pins, checks by each kind of man, double checks,
/// captures of and beside kings, corners and edges.
///
/// The lists are those of Stockfish 15.1 (Debian's package), `go perft 1`, put in order of square.
const LEGAL_MOVES: [&str; 28] = [
    "k7/8/1K6/8/8/8/8/3Q4 b - - 0 1: a8b8",
    "8/8/8/8/8/8/8/r2K3k w - - 0 1: d1c2 d1d2 d1e2",
    "4k3/4r3/8/8/8/8/4B3/4K3 w - - 0 1: e1d1 e1f1 e1d2 e1f2",
    "4k3/4r3/8/8/8/8/4R3/4K3 w - - 0 1: e1d1 e1f1 e1d2 e1f2 e2e3 e2e4 e2e5 e2e6 e2e7",
    "4k3/8/8/8/1b6/8/3N4/4K3 w - - 0 1: e1d1 e1f1 e1e2 e1f2",
    "k7/8/8/8/8/2b5/1Q6/K7 w - - 0 1: a1b1 a1a2 b2c3",
    "8/8/8/8/8/5n2/k7/4K3 w - - 0 1: e1d1 e1f1 e1e2 e1f2",
    "4k3/8/8/8/7b/8/8/4K3 w - - 0 1: e1d1 e1f1 e1d2 e1e2",
    "4k3/8/8/8/8/8/4q3/4K3 w - - 0 1: e1e2",
    "8/8/8/8/8/4k3/4q3/4K3 w - - 0 1: ",
    "4r1k1/8/8/8/7b/8/8/4K3 w - - 0 1: e1d1 e1f1 e1d2",
    "4r1k1/8/8/8/8/3n4/8/4K3 w - - 0 1: e1d1 e1f1 e1d2",
    "7k/8/8/3K4/8/8/8/Q6R b - - 0 1: h8g8",
    "8/8/8/3k4/8/8/1N6/1K1N4 w - - 0 1: b1a1 b1c1 b1a2 b1c2 d1f2 d1c3 d1e3 b2d3 b2a4 b2c4",
    "Q7/8/8/8/3K4/6k1/8/Q7 w - - 0 1: a1b1 a1c1 a1d1 a1e1 a1f1 a1g1 a1h1 a1a2 a1b2 a1a3 a1c3 a1a4 a1a5 a1a6 a1a7 \
     d4c3 d4d3 d4e3 d4c4 d4e4 d4c5 d4d5 d4e5 a8h1 a8a2 a8g2 a8a3 a8f3 a8a4 a8e4 a8a5 a8d5 a8a6 a8c6 a8a7 a8b7 a8b8 \
     a8c8 a8d8 a8e8 a8f8 a8g8 a8h8",
    "8/8/2k5/8/3B4/8/5K2/6B1 w - - 0 1: g1h2 f2e1 f2f1 f2e2 f2g2 f2e3 f2f3 f2g3 d4a1 d4b2 d4c3 d4e3 d4c5 d4e5 d4b6 \
     d4f6 d4a7 d4g7 d4h8",
    "k7/2Q5/8/8/8/8/8/4K3 b - - 0 1: ",
    "k7/1Q6/1K6/8/8/8/8/8 b - - 0 1: ",
    "8/8/8/4k3/8/4K3/8/8 w - - 0 1: e3d2 e3e2 e3f2 e3d3 e3f3",
    "8/8/8/8/8/8/1kQ5/7K b - - 0 1: b2a1 b2c2 b2a3",
    "7R/8/8/8/8/8/k1K5/8 b - - 0 1: a2a1 a2a3",
    "8/8/8/3q4/8/3K4/k7/3R4 w - - 0 1: d3c2 d3e2 d3c3 d3e3",
    "8/1R6/8/1k6/8/8/3K4/1r6 b - - 0 1: b5a4 b5c4 b5a5 b5c5 b5a6 b5c6",
    "n6k/8/8/8/8/8/8/K6N w - - 0 1: a1b1 a1a2 a1b2 h1f2 h1g3",
    "7k/6R1/5K2/8/8/8/8/7b b - - 0 1: h1g2 h1f3 h1e4 h1d5 h1c6 h1b7 h1a8",
    "b6K/8/8/8/8/8/8/k6B w - - 0 1: h1g2 h1f3 h1e4 h1d5 h1c6 h1b7 h1a8 h8g7 h8h7 h8g8",
    "8/8/8/8/K2R3r/8/8/7k b - - 0 1: h1g1 h1g2 h1h2 h4h2 h4h3 h4d4 h4e4 h4f4 h4g4 h4h5 h4h6 h4h7 h4h8",
    "8/8/8/2k5/8/1K6/2r5/3R4 w - - 0 1: d1a1 d1b1 d1c1 d1e1 d1f1 d1g1 d1h1 d1d2 d1d3 d1d4 d1d5 d1d6 d1d7 d1d8 b3c2 \
     b3a3 b3a4",
];

/// Whether the words behind the colon of a row are the legal moves of the FEN before it, in order.
pub(crate) fn lists(alloc: Global, row: &str) -> Result<bool, MovesFault> {
    let Some((fen, moves)) = row.split_once(": ") else {
        return Ok(false);
    };
    let text = moves_text(alloc, fen.as_bytes())?;
    Ok(has_lines(&text, moves))
}

#[test]
fn lists_the_moves_that_an_engine_lists(rt: HostRuntime) -> Result<(), Fail> {
    for &row in &LEGAL_MOVES {
        require_at(&rt, lists(rt.alloc(), row)?, row);
    }
    Ok(())
}

/// Positions, and the text that is printed: a capture in passing that takes the checking pawn, a king beside a rook's
/// line, a pawn that promotes, and a pawn at home.
const PRINTED: [(&str, &str); 5] = [
    ("k7/8/1K6/8/8/8/8/3Q4 b - - 0 1", "a8b8\n"),
    (
        "8/8/8/3k4/3pP3/8/8/7K b - e3 0 1",
        "d4e3\nd5c4\nd5e4\nd5c5\nd5e5\nd5c6\nd5d6\nd5e6\n",
    ),
    ("8/8/8/8/8/8/8/r2K3k w - - 0 1", "d1c2\nd1d2\nd1e2\n"),
    (
        "8/P6k/8/8/8/8/8/K7 w - - 0 1",
        "a1b1\na1a2\na1b2\na7a8q\na7a8r\na7a8b\na7a8n\n",
    ),
    ("4k3/8/8/8/8/8/P7/K7 w - - 0 1", "a1b1\na1b2\na2a3\na2a4\n"),
];

#[test]
fn prints_one_move_a_line(rt: HostRuntime) {
    for &(fen, text) in &PRINTED {
        let right = prints(&rt, &["moves", fen], 0, text, "") == Some(true);
        require_at(&rt, right, fen);
    }
}

/// Texts that are refused, and the first fault of each.
const REFUSED: [(&str, FenFault); 12] = [
    ("", FenFault::FieldCount),
    ("k7/8/8/8/8/8/8/K7 w - - 0", FenFault::FieldCount),
    ("k8/8/8/8/8/8/8/K7 w - - 0 1", FenFault::Placement),
    ("k7/8/8/8/8/8/8/K7 x - - 0 1", FenFault::Colour),
    ("4k3/8/8/8/8/8/8/4K2R w KQkq - 0 1", FenFault::Castling),
    ("k7/8/8/8/8/8/8/K7 w - e4 0 1", FenFault::EpField),
    ("k7/8/8/8/8/8/8/K7 w - - x 1", FenFault::Counter),
    ("k7/8/8/8/8/8/8/KQRB4 w - - 0 1", FenFault::MenCount),
    ("8/8/8/8/8/8/8/K7 w - - 0 1", FenFault::KingCount),
    ("4P2k/8/8/8/8/8/8/K7 w - - 0 1", FenFault::PawnRank),
    ("4k3/8/8/8/4P3/8/8/4K3 w - e3 0 1", FenFault::EpMismatch),
    ("k7/8/8/8/8/8/8/R6K w - - 0 1", FenFault::WaitingInCheck),
];

#[test]
fn refuses_with_the_first_fault(rt: HostRuntime) {
    for &(fen, fault) in &REFUSED {
        let refused = match moves_text(rt.alloc(), fen.as_bytes()) {
            Err(MovesFault::Fen(first)) => first == fault,
            _ => false,
        };
        require_at(&rt, refused, fen);
    }
}

/// Whether `moves` prints the words of a row, one a line.
fn prints_lines(rt: &HostRuntime, row: &str) -> Option<bool> {
    let (fen, words) = row.split_once(": ")?;
    let ran = run_on(rt, &["moves", fen], b"")?;
    Some(ran.status == 0 && has_lines(ran.out.bytes(), words) && ran.err.bytes().is_empty())
}

#[test]
fn prints_the_moves(rt: HostRuntime) {
    for &row in &LEGAL_MOVES {
        require_at(&rt, prints_lines(&rt, row) == Some(true), row);
    }
}

/// What is printed of each of them.
const FAULT_LINES: [&str; 12] = [
    "error fen 1 FieldCount\n",
    "error fen 1 FieldCount\n",
    "error fen 2 Placement\n",
    "error fen 3 Colour\n",
    "error fen 4 Castling\n",
    "error fen 5 EpField\n",
    "error fen 6 Counter\n",
    "error fen 7 MenCount\n",
    "error fen 8 KingCount\n",
    "error fen 9 PawnRank\n",
    "error fen 10 EpMismatch\n",
    "error fen 11 WaitingInCheck\n",
];

/// Whether `moves` and `search` both print this line of the text to the standard error, and nothing else.
fn both_refuse(rt: &HostRuntime, fen: &str, line: &str) -> Option<bool> {
    let moves = prints(rt, &["moves", fen], 1, "", line)?;
    let search = prints(rt, &["search", "1", fen], 1, "", line)?;
    Some(moves && search)
}

#[test]
fn prints_the_first_fault(rt: HostRuntime) {
    for ((fen, _), line) in REFUSED.iter().zip(&FAULT_LINES) {
        require_at(&rt, both_refuse(&rt, fen, line) == Some(true), fen);
    }
}

/// Whether the help that these words ask for is printed, and nothing else.
fn helps(rt: &HostRuntime, words: &[&str], head: &str) -> Option<bool> {
    let ran = run_on(rt, words, b"")?;
    Some(
        ran.status == 0
            && ran.out.bytes().starts_with(head.as_bytes())
            && ran.err.bytes().is_empty(),
    )
}

#[test]
fn prints_its_help(rt: HostRuntime) {
    let asked: [(&[&str], &str); 3] = [
        (&["--help"], "Chess endgame tables of two to four men\n"),
        (
            &["build", "--help"],
            "Builds the table of a class from those of its children\n",
        ),
        (
            &["probe", "--help"],
            "Reports of each FEN of the standard input, one a line\n",
        ),
    ];
    for (words, head) in &asked {
        require(&rt, helps(&rt, words, head) == Some(true));
    }
}

/// Whether a failing push to the standard output is told on the standard error, where that takes the line, and ends
/// with status 3 in any case.
fn tells_failure(rt: &HostRuntime, words: &[&str]) -> Option<bool> {
    let (status, err) = run_failing(rt, words, 1, 1)?;
    let silent = status == 3 && err.bytes() != b"error device\n".as_slice();
    Some(silent && fails(rt, words, (1, 0), 3, "error device\n")?)
}

/// The status where the first push to the standard error fails.
fn status_alone(rt: &HostRuntime, words: &[&str]) -> Option<u8> {
    Some(run_failing(rt, words, 0, 1)?.0)
}

#[test]
fn streams_that_fail(rt: HostRuntime) {
    let fen = "8/8/8/4k3/8/4K3/8/8 w - - 0 1";
    let printing: [&[&str]; 4] = [
        &["moves", fen],
        &["search", "1", fen],
        &["list"],
        &["--help"],
    ];
    for words in &printing {
        require(&rt, tells_failure(&rt, words) == Some(true));
    }
    require(&rt, status_alone(&rt, &["moves", ""]) == Some(1));
    require(&rt, status_alone(&rt, &["castle"]) == Some(2));
}
