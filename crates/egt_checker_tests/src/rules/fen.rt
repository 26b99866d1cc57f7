//! Texts of positions, whose answers come from the PGN standard or are worked out by hand.
use crate::asserts::{require, require_at};
use crate::rules::men::{position_of, same};
use egt_fen::{FenFault, read, write};
use std::alloc::Global;

/// The number of the text's fault; 0 where it spells a position.
fn number_of(text: &str) -> u8 {
    match read(text.as_bytes()) {
        Ok(_) => 0,
        Err(fault) => fault.number(),
    }
}

/// Texts, and the numbers of their first faults; 0 where they spell a position.
const FAULTS: &[(&str, u8)] = &[
    // Each fault by itself.
    ("", 1),
    ("k7/8/8/8/8/8/8/K7 w - - 0", 1),
    ("k8/8/8/8/8/8/8/K7 w - - 0 1", 2),
    ("k7/8/8/8/8/8/8/K7 x - - 0 1", 3),
    ("4k3/8/8/8/8/8/8/4K2R w KQkq - 0 1", 4),
    ("k7/8/8/8/8/8/8/K7 w - e4 0 1", 5),
    ("k7/8/8/8/8/8/8/K7 w - - x 1", 6),
    ("k7/8/8/8/8/8/8/KQRB4 w - - 0 1", 7),
    ("8/8/8/8/8/8/8/K7 w - - 0 1", 8),
    ("4P2k/8/8/8/8/8/8/K7 w - - 0 1", 9),
    ("4k3/8/8/8/4P3/8/8/4K3 w - e3 0 1", 10),
    ("k7/8/8/8/8/8/8/R6K w - - 0 1", 11),
    // Numbers of fields, and what parts them.
    ("k7/8/8/8/8/8/8/K7 w - - 0 1", 0),
    ("k7/8/8/8/8/8/8/K7 w - -", 0),
    ("  k7/8/8/8/8/8/8/K7   w -  - 0 1 ", 0),
    ("k7/8/8/8/8/8/8/K7 w -", 1),
    ("k7/8/8/8/8/8/8/K7 w - - 0 1 -", 1),
    ("k7/8/8/8/8/8/8/K7\tw - - 0 1", 1),
    (" \r", 1),
    ("k7/8/8/8/8/8/8/K7 w - - 0 1\r", 0),
    ("k7/8/8/8/8/8/8/K7 w - -\r", 0),
    ("k7/8/8/8/8/8/8/K7 w - - 0 1\r\r", 6),
    ("k7/8/8/8/8/8/8/K7 w - - 0 1\r ", 6),
    ("k7/8/8/8/8/8/8/K7 w - - 0 1\n", 6),
    // Placements.
    ("k43/8/8/44/8/8/8/K7 w - -", 0),
    ("1111k111/8/8/8/8/8/8/K7 w - -", 0),
    ("k7/8/8/8/8/8/K7 w - -", 2),
    ("k7/8/8/8/8/8/8/8/K7 w - -", 2),
    ("k7/8/8/8/8/8/8/K7/ w - -", 2),
    ("k7/8/8/8/8/8/8/K6 w - -", 2),
    ("k7/8/8/8/8/8/8/K9 w - -", 2),
    ("k7/8/8/8/8/8/8/K07 w - -", 2),
    ("k7/8/8/8/8/8/8/X7 w - -", 2),
    ("/k7/8/8/8/8/8/K7 w - -", 2),
    // Five men, then two kings of one side, then men on every square.
    ("kq6/8/8/8/8/8/8/KQR5 w - -", 7),
    ("kk6/8/8/8/8/8/8/K7 w - -", 8),
    (
        "kkkkkkkk/kkkkkkkk/kkkkkkkk/kkkkkkkk/kkkkkkkk/kkkkkkkk/kkkkkkkk/kkkkkkkk w - -",
        7,
    ),
    // What is wrong further right is not told.
    ("kq6/8/8/8/8/8/8/KQR5 x KQkq e4 x", 1),
    ("kq6/8/8/8/8/8/8/KQR6 x KQkq e4 x 1", 2),
    ("kq6/8/8/8/8/8/8/KQR5 x KQkq e4 x 1", 3),
    ("kq6/8/8/8/8/8/8/KQR5 w KQkq e4 x 1", 4),
    ("kq6/8/8/8/8/8/8/KQR5 w - e4 x 1", 5),
    ("kq6/8/8/8/8/8/8/KQR5 w - e3 x 1", 6),
    ("kq6/8/8/8/8/8/8/KQR5 w - e3 0 1", 7),
    ("kk6/8/8/8/8/8/8/K7 w - e6 0 1", 8),
    ("k7/8/8/8/8/8/8/R6K w - e6 0 1", 10),
    // Pawns.
    ("4k3/4p3/8/8/8/8/4P3/4K3 w - - 0 1", 0),
    ("4k3/2P5/8/8/8/8/2p5/4K3 b - - 0 1", 0),
    ("k7/8/8/8/8/8/8/K3P3 w - - 0 1", 9),
    ("k3p3/8/8/8/8/8/8/K7 b - - 0 1", 9),
    ("k7/8/8/8/8/8/8/K6p b - - 0 1", 9),
    // Of two faults the first is told.
    ("4P3/8/8/8/8/8/8/K7 w - - 0 1", 8),
    ("k3P3/8/8/8/8/8/8/K7 w - e6 0 1", 9),
    ("k3P3/8/8/8/8/8/8/R6K w - - 0 1", 9),
    // A pawn attacks diagonally forward, whoever is to move.
    ("8/8/8/3k4/4P3/8/8/7K b - - 0 1", 0),
    ("8/8/8/3k4/4P3/8/8/7K w - - 0 1", 11),
    ("8/8/8/4k3/4P3/8/8/7K w - - 0 1", 0),
    ("8/8/8/4P3/3k4/8/8/7K w - - 0 1", 0),
    // With a pawn that may take, and with none.
    ("8/8/8/3k4/3pP3/8/8/7K b - e3 0 1", 0),
    ("8/8/8/8/4P3/8/8/k1K5 b - e3 0 1", 0),
    ("k7/8/8/4p3/8/8/8/K7 w - e6 0 1", 0),
    // On the rank of the other side's targets.
    ("8/8/8/8/4P3/8/8/k1K5 w - e3 0 1", 10),
    ("8/8/8/8/4P3/8/8/k1K5 b - e6 0 1", 10),
    ("k7/8/8/4p3/8/8/8/K7 b - e6 0 1", 10),
    ("k7/8/8/4p3/8/8/8/K7 w - e3 0 1", 10),
    // Occupied, or with a man where the pawn came from.
    ("k7/8/8/8/4P3/4N3/8/K7 b - e3 0 1", 10),
    ("k7/8/8/8/4P3/8/4N3/K7 b - e3 0 1", 10),
    ("k7/8/4n3/4p3/8/8/8/K7 w - e6 0 1", 10),
    ("k7/4n3/8/4p3/8/8/8/K7 w - e6 0 1", 10),
    // No pawn in front, one of the side to move, or another man.
    ("8/8/8/8/4P3/8/8/k1K5 b - d3 0 1", 10),
    ("k7/8/8/8/4p3/8/8/K7 b - e3 0 1", 10),
    ("k7/8/8/8/4N3/8/8/K7 b - e3 0 1", 10),
    // Told before a check: the pawn attacks the king of the side that waits.
    ("8/8/8/3k4/4P3/8/8/7K w - e3 0 1", 10),
    // The words of targets, castling, sides and clocks.
    // A target that no pawn has passed: the squares are read, and the position is refused.
    ("k7/8/8/8/8/8/8/K7 w - e6 0 1", 10),
    ("k7/8/8/8/8/8/8/K7 b - h3 0 1", 10),
    ("k7/8/8/8/8/8/8/K7 b - a3 0 1", 10),
    ("k7/8/8/8/8/8/8/K7 w - i3 0 1", 5),
    ("k7/8/8/8/8/8/8/K7 w - E3 0 1", 5),
    ("k7/8/8/8/8/8/8/K7 w - e 0 1", 5),
    ("k7/8/8/8/8/8/8/K7 w - e33 0 1", 5),
    ("k7/8/8/8/8/8/8/K7 w - -- 0 1", 5),
    ("k7/8/8/8/8/8/8/K7 w -- - 0 1", 4),
    ("k7/8/8/8/8/8/8/K7 ww - - 0 1", 3),
    ("k7/8/8/8/8/8/8/K7 W - - 0 1", 3),
    ("k7/8/8/8/8/8/8/K7 w - - 999999999 000000001", 0),
    ("k7/8/8/8/8/8/8/K7 w - - 1000000000 1", 6),
    ("k7/8/8/8/8/8/8/K7 w - - 0 0000000001", 6),
    ("k7/8/8/8/8/8/8/K7 w - - -1 1", 6),
    ("k7/8/8/8/8/8/8/K7 w - - +1 1", 6),
    ("k7/8/8/8/8/8/8/K7 w - - 0 1.", 6),
];

#[test]
fn first_faults(rt: HostRuntime) {
    for &(text, number) in FAULTS {
        require_at(&rt, number_of(text) == number, text);
    }
}

/// Whether the text spells the position of these words, with these clocks.
fn spells(text: &str, words: &str, clocks: (u32, u32)) -> Option<bool> {
    let fen = read(text.as_bytes()).ok()?;
    let position = position_of(words)?;
    Some(same(&fen.position, &position) && (fen.halfmove, fen.fullmove) == clocks)
}

#[test]
fn reads_what_is_spelled(rt: HostRuntime) {
    for &(text, words, clocks) in &[
        (
            "1q6/8/8/44/8/4K3/8/4k2N b - - 007 42",
            "Ke3 Nh1 ke1 qb8 b",
            (7, 42),
        ),
        // Pawns and the target.
        (
            "8/8/8/3k4/3pP3/8/8/7K b - e3 0 1",
            "Kh1 Pe4 kd5 pd4 b e3",
            (0, 1),
        ),
        // Four fields have clocks of their own.
        ("8/8/8/44/8/4K3/8/4k3 w - -", "Ke3 ke1 w", (0, 1)),
    ] {
        require_at(&rt, spells(text, words, clocks) == Some(true), text);
    }
}

/// Whether what the text spells is written so.
fn is_written(alloc: Global, text: &str, written: &str) -> Option<bool> {
    let fen = read(text.as_bytes()).ok()?;
    let made = write(alloc, &fen).ok()?;
    Some(made.as_slice() == written.as_bytes())
}

#[test]
fn writes_the_one_text(rt: HostRuntime) {
    for &(text, written) in &[
        (
            "8/8/8/44/8/4K3/8/4k3 w - -",
            "8/8/8/8/8/4K3/8/4k3 w - - 0 1",
        ),
        (
            "  k43/8/8/44/8/8/8/K7   b -  - 007 00042 \r",
            "k7/8/8/8/8/8/8/K7 b - - 7 42",
        ),
        (
            "111k4/8/8/8/1r1113/8/8/K11111N1 w - - 0 0",
            "3k4/8/8/8/1r6/8/8/K5N1 w - - 0 0",
        ),
        (
            "7k/8/8/8/8/8/6b1/KQ6 b - - 999999999 999999999",
            "7k/8/8/8/8/8/6b1/KQ6 b - - 999999999 999999999",
        ),
    ] {
        let right = is_written(rt.alloc(), text, written) == Some(true);
        require_at(&rt, right, text);
    }
}

#[test]
fn writes_targets_as_they_were_read(rt: HostRuntime) {
    for &text in &[
        "8/8/8/3k4/3pP3/8/8/7K b - e3 0 1",
        "8/8/8/8/4P3/8/8/k1K5 b - e3 0 1",
        "8/8/8/8/4P3/8/8/k1K5 b - - 0 1",
        "8/8/8/8/P7/8/8/k1K5 b - a3 0 1",
        "k7/8/8/7p/8/8/8/K7 w - h6 0 57",
        "4k3/8/8/2Pp4/8/8/8/4K3 w - d6 0 1",
    ] {
        require_at(&rt, is_written(rt.alloc(), text, text) == Some(true), text);
    }
}

/// Whether what is written of the text's position spells it again.
fn is_read_again(alloc: Global, text: &str) -> Option<bool> {
    let fen = read(text.as_bytes()).ok()?;
    let again = read(&write(alloc, &fen).ok()?).ok()?;
    let clocks = (again.halfmove, again.fullmove) == (fen.halfmove, fen.fullmove);
    Some(clocks && same(&again.position, &fen.position))
}

#[test]
fn reads_what_it_wrote(rt: HostRuntime) {
    let text = "4k3/8/8/8/2n2P2/8/8/4K3 b - f3 12 34";
    let right = spells(text, "Ke1 Pf4 nc4 ke8 b f3", (12, 34)) == Some(true);
    require(&rt, right);
    require(&rt, is_read_again(rt.alloc(), text) == Some(true));
}

#[test]
fn names_of_faults(rt: HostRuntime) {
    for &(fault, number, name) in &[
        (FenFault::FieldCount, 1, "FieldCount"),
        (FenFault::Placement, 2, "Placement"),
        (FenFault::Colour, 3, "Colour"),
        (FenFault::Castling, 4, "Castling"),
        (FenFault::EpField, 5, "EpField"),
        (FenFault::Counter, 6, "Counter"),
        (FenFault::MenCount, 7, "MenCount"),
        (FenFault::KingCount, 8, "KingCount"),
        (FenFault::PawnRank, 9, "PawnRank"),
        (FenFault::EpMismatch, 10, "EpMismatch"),
        (FenFault::WaitingInCheck, 11, "WaitingInCheck"),
    ] {
        require_at(&rt, fault.number() == number && fault.name() == name, name);
    }
}
