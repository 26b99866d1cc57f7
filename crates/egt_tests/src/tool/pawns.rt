//! Worked texts of the program, with pawns.
//!
//! The lists of moves are those of Stockfish 15.1 (Debian's package), `go perft 1`, put in order of square, then
//! promotion (queen, rook, bishop, knight).
use super::moves::lists;
use crate::asserts::require_at;
use std::test::Fail;

/// Targets that a pawn can take en passant, and targets that none can.
const EN_PASSANT: [&str; 31] = [
    // En passant, from either side, by either colour, beside the edges and on them.
    "4k3/8/8/3pP3/8/8/8/4K3 w - d6 0 1: e1d1 e1f1 e1d2 e1e2 e1f2 e5d6 e5e6",
    "4k3/8/8/4Pp2/8/8/8/4K3 w - f6 0 1: e1d1 e1f1 e1d2 e1e2 e1f2 e5e6 e5f6",
    "7k/8/8/pP6/8/8/8/K7 w - a6 0 1: a1b1 a1a2 a1b2 b5a6 b5b6",
    "k7/8/8/6Pp/8/8/8/7K w - h6 0 1: h1g1 h1g2 h1h2 g5g6 g5h6",
    "4k3/8/8/8/3Pp3/8/8/4K3 b - d3 0 1: e4d3 e4e3 e8d7 e8e7 e8f7 e8d8 e8f8",
    "4k3/8/8/8/4pP2/8/8/4K3 b - f3 0 1: e4e3 e4f3 e8d7 e8e7 e8f7 e8d8 e8f8",
    "8/8/8/8/pP6/8/k7/7K b - b3 0 1: a2a1 a2b1 a2b2 a2a3 a2b3 a4a3 a4b3",
    "k7/8/8/8/6Pp/8/8/K7 b - g3 0 1: h4g3 h4h3 a8a7 a8b7 a8b8",
    // En passant by a pawn that can not advance, and en passant that gives check.
    "8/8/4k3/3pP3/8/8/8/4K3 w - d6 0 1: e1d1 e1f1 e1d2 e1e2 e1f2 e5d6",
    "8/8/8/8/pP6/k7/8/K7 b - b3 0 1: a3b3 a3b4 a4b3",
    "8/2k5/8/3pP3/8/8/8/4K3 w - d6 0 1: e1d1 e1f1 e1d2 e1e2 e1f2 e5d6 e5e6",
    "4k3/8/8/8/3Pp3/8/4K3/8 b - d3 0 1: e4d3 e4e3 e8d7 e8e7 e8f7 e8d8 e8f8",
    // En passant that takes the checking pawn. With four men nothing else gives check there, and en passant uncovers
    // no king.
    "8/8/8/3k4/3pP3/8/8/7K b - e3 0 1: d4e3 d5c4 d5e4 d5c5 d5e5 d5c6 d5d6 d5e6",
    "8/8/8/5k2/4Pp2/8/8/7K b - e3 0 1: f4e3 f5e4 f5g4 f5e5 f5g5 f5e6 f5f6 f5g6",
    "7k/8/8/3Pp3/3K4/8/8/8 w - e6 0 1: d4c3 d4d3 d4e3 d4c4 d4e4 d4c5 d4e5 d5e6",
    "7k/8/8/4pP2/3K4/8/8/8 w - e6 0 1: d4c3 d4d3 d4e3 d4c4 d4e4 d4c5 d4d5 d4e5 f5e6",
    // These men without the target, as a move later: no en passant.
    "4k3/8/8/3pP3/8/8/8/4K3 w - - 0 2: e1d1 e1f1 e1d2 e1e2 e1f2 e5e6",
    "8/8/8/3k4/3pP3/8/8/7K b - - 0 1: d5c4 d5e4 d5c5 d5e5 d5c6 d5d6 d5e6",
    // A target that no pawn can use: none is beside the advanced pawn, or it is on another rank or another file.
    "4k3/8/8/4p3/8/8/8/4K3 w - e6 0 1: e1d1 e1f1 e1d2 e1e2 e1f2",
    "4k3/8/8/8/2p1P3/8/8/4K3 b - e3 0 1: c4c3 e8d7 e8e7 e8f7 e8d8 e8f8",
    "4k3/8/8/3p4/4P3/8/8/4K3 b - e3 0 1: d5d4 d5e4 e8d7 e8e7 e8f7 e8d8 e8f8",
    "4k3/8/8/4p3/4P3/8/8/4K3 b - e3 0 1: e8d7 e8e7 e8f7 e8d8 e8f8",
    // A target across the edge: one rank off, the pawn's square differs by 7 or 9 as in a capture.
    "k7/8/P7/7p/8/8/8/K7 w - h6 0 1: a1b1 a1a2 a1b2 a6a7",
    "7k/8/8/p7/7P/8/8/7K w - a6 0 1: h1g1 h1g2 h1h2 h4h5",
    "7k/8/8/p7/7P/8/8/7K b - h3 0 1: a5a4 h8g7 h8h7 h8g8",
    "7k/8/8/8/P7/7p/8/K7 b - a3 0 1: h3h2 h8g7 h8h7 h8g8",
    // Men other than pawns go to the target as to any empty square; checks after the advance are answered without it.
    "8/8/8/8/3kP3/8/8/7K b - e3 0 1: d4c3 d4d3 d4e3 d4c4 d4e4 d4c5 d4e5",
    "4k3/8/8/8/3bP3/8/8/4K3 b - e3 0 1: d4a1 d4g1 d4b2 d4f2 d4c3 d4e3 d4c5 d4e5 d4b6 d4f6 d4a7 d4g7 d4h8 e8d7 e8e7 \
     e8f7 e8d8 e8f8",
    "7k/8/8/4p3/3N4/8/8/K7 w - e6 0 1: a1b1 a1a2 a1b2 d4c2 d4e2 d4b3 d4f3 d4b5 d4f5 d4c6 d4e6",
    "8/8/8/3k4/4P3/8/8/7K b - e3 0 1: d5c4 d5d4 d5e4 d5c5 d5e5 d5c6 d5d6 d5e6",
    "8/8/8/7k/4P3/8/8/K2B4 b - e3 0 1: h5h4 h5g5 h5g6 h5h6",
];

#[test]
fn lists_en_passant_as_an_engine_does(rt: HostRuntime) -> Result<(), Fail> {
    for &row in &EN_PASSANT {
        require_at(&rt, lists(rt.alloc(), row)?, row);
    }
    Ok(())
}

/// Advances and captures.
const ADVANCES: [&str; 28] = [
    // Advances by one and two squares, from the original rank alone.
    "4k3/8/8/8/8/8/P7/K7 w - - 0 1: a1b1 a1b2 a2a3 a2a4",
    "4k3/4p3/8/8/8/8/8/4K3 b - - 0 1: e7e5 e7e6 e8d7 e8f7 e8d8 e8f8",
    "7k/8/8/8/8/P7/7P/K7 w - - 0 1: a1b1 a1a2 a1b2 h2h3 h2h4 a3a4",
    "k7/p7/7p/8/8/8/8/7K b - - 0 1: h6h5 a7a5 a7a6 a8b7 a8b8",
    "4k3/8/8/8/8/1P6/8/4K3 w - - 0 1: e1d1 e1f1 e1d2 e1e2 e1f2 b3b4",
    "4k3/8/8/1p6/8/8/8/4K3 b - - 0 1: b5b4 e8d7 e8e7 e8f7 e8d8 e8f8",
    // Advances blocked on the first square, by an own man or the other side's.
    "4k3/8/8/8/8/4K3/4P3/8 w - - 0 1: e3d2 e3f2 e3d3 e3f3 e3d4 e3e4 e3f4",
    "8/8/8/8/8/4k3/4P3/7K w - - 0 1: h1g1 h1g2 h1h2",
    "4k3/4p3/4R3/8/8/8/8/4K3 b - - 0 1: e8d7 e8f7 e8d8 e8f8",
    "4k3/8/8/4n3/4P3/8/8/4K3 w - - 0 1: e1d1 e1f1 e1d2 e1e2 e1f2",
    // Advances blocked on the second square alone.
    "4k3/8/8/8/4n3/8/4P3/K7 w - - 0 1: a1b1 a1a2 a1b2 e2e3",
    "4k3/8/8/8/4p3/8/4P3/4K3 w - - 0 1: e1d1 e1f1 e1d2 e1f2 e2e3",
    "8/4p3/8/4k3/8/8/8/4K3 b - - 0 1: e5d4 e5e4 e5f4 e5d5 e5f5 e5d6 e5e6 e5f6 e7e6",
    // Captures to the left and to the right.
    "4k3/8/8/3n4/4P3/8/8/4K3 w - - 0 1: e1d1 e1f1 e1d2 e1e2 e1f2 e4d5 e4e5",
    "4k3/8/8/5r2/4P3/8/8/3K4 w - - 0 1: d1c1 d1e1 d1c2 d1d2 d1e2 e4e5 e4f5",
    "4k3/8/8/4p3/3Q4/8/8/3K4 b - - 0 1: e5d4 e5e4 e8e7 e8f7 e8f8",
    "4k3/8/8/4p3/5B2/8/8/4K3 b - - 0 1: e5e4 e5f4 e8d7 e8e7 e8f7 e8d8 e8f8",
    "4k3/8/8/2p5/1P6/8/8/4K3 w - - 0 1: e1d1 e1f1 e1d2 e1e2 e1f2 b4b5 b4c5",
    // No capture of own men, straight ahead, sideways or backward.
    "4k3/8/8/3N4/4P3/8/8/4K3 w - - 0 1: e1d1 e1f1 e1d2 e1e2 e1f2 e4e5 d5c3 d5e3 d5b4 d5f4 d5b6 d5f6 d5c7 d5e7",
    "4k3/8/8/8/4p3/5b2/8/4K3 b - - 0 1: f3d1 f3h1 f3e2 f3g2 f3g4 f3h5 e4e3 e8d7 e8e7 e8f7 e8d8 e8f8",
    "7k/8/8/8/4Pn2/8/8/K7 w - - 0 1: a1b1 a1a2 a1b2 e4e5",
    "7k/8/5R2/4p3/8/8/8/K7 b - - 0 1: e5e4 h8g7 h8h7 h8g8",
    // Pawns on the files a and h, with the other side's man across the edge.
    "6k1/8/8/P6n/8/8/8/K7 w - - 0 1: a1b1 a1a2 a1b2 a5a6",
    "7k/n7/8/7P/8/8/8/K7 w - - 0 1: a1b1 a1a2 a1b2 h5h6",
    "k7/8/8/8/p7/8/7R/K7 b - - 0 1: a4a3 a8a7 a8b7 a8b8",
    "7k/8/8/8/N6p/8/8/K7 b - - 0 1: h4h3 h8g7 h8h7 h8g8",
    "8/P6r/8/8/8/8/k7/6K1 w - - 0 1: g1f1 g1f2 g1g2 a7a8q a7a8r a7a8b a7a8n",
    "8/8/8/8/8/1k6/R6p/3K4 b - - 0 1: h2h1q h2h1r h2h1b h2h1n b3a2 b3c3 b3b4 b3c4",
];

#[test]
fn lists_advances_and_captures_as_an_engine_does(rt: HostRuntime) -> Result<(), Fail> {
    for &row in &ADVANCES {
        require_at(&rt, lists(rt.alloc(), row)?, row);
    }
    Ok(())
}

/// Pinned pawns, and pawns that answer a check.
const PINS: [&str; 22] = [
    // Pinned pawns. Along the file they may advance.
    "4r2k/8/8/8/8/8/4P3/4K3 w - - 0 1: e1d1 e1f1 e1d2 e1f2 e2e3 e2e4",
    "4k3/4p3/8/8/8/8/8/4R1K1 b - - 0 1: e7e5 e7e6 e8d7 e8f7 e8d8 e8f8",
    // Along the diagonal they may capture the pinning man, no more.
    "7k/8/8/8/8/6b1/5P2/4K3 w - - 0 1: e1d1 e1f1 e1d2 e1e2 f2g3",
    "7k/8/8/8/7b/8/5P2/4K3 w - - 0 1: e1d1 e1f1 e1d2 e1e2",
    "4k3/3p4/2Q5/8/8/8/8/4K3 b - - 0 1: d7c6 e8e7 e8f7 e8d8 e8f8",
    "4k3/3p4/8/8/B7/8/8/4K3 b - - 0 1: e8e7 e8f7 e8d8 e8f8",
    // Along the rank they may do nothing.
    "7k/8/8/8/8/8/1r1P1K2/8 w - - 0 1: f2e1 f2f1 f2g1 f2e2 f2g2 f2e3 f2f3 f2g3",
    "8/k1p3Q1/8/8/8/8/8/7K b - - 0 1: a7a6 a7b6 a7b7 a7a8 a7b8",
    // Pinned on the last rank but one: promotion by capturing the pinning man, or none.
    "7b/6P1/5K2/8/8/8/8/k7 w - - 0 1: f6e5 f6f5 f6g5 f6e6 f6g6 f6e7 f6f7 g7h8q g7h8r g7h8b g7h8n",
    "4r2k/4P3/4K3/8/8/8/8/8 w - - 0 1: e6d5 e6e5 e6f5 e6d6 e6f6 e6d7 e6f7",
    "8/r2P1K2/8/8/8/8/8/7k w - - 0 1: f7e6 f7f6 f7g6 f7e7 f7g7 f7e8 f7f8 f7g8",
    "8/8/8/8/8/3k4/2p5/1B5K b - - 0 1: c2b1q c2b1r c2b1b c2b1n d3d2 d3e2 d3c3 d3e3 d3c4 d3d4 d3e4",
    "8/8/8/8/8/8/2Rp1k2/K7 b - - 0 1: f2e1 f2f1 f2g1 f2e2 f2g2 f2e3 f2f3 f2g3",
    // A pawn blocks a check by one square or by two, or captures the checking man.
    "7k/8/8/8/8/K6r/4P3/8 w - - 0 1: e2e3 a3a2 a3b2 a3a4 a3b4",
    "7k/8/8/8/K6r/8/4P3/8 w - - 0 1: e2e4 a4a3 a4b3 a4a5 a4b5",
    "8/2p5/k6R/8/8/8/8/7K b - - 0 1: a6a5 a6b5 a6a7 a6b7 c7c6",
    "8/4p3/8/k6R/8/8/8/7K b - - 0 1: a5a4 a5b4 a5a6 a5b6 e7e5",
    "7k/8/8/3q4/4P3/8/8/3K4 w - - 0 1: d1c1 d1e1 d1c2 d1e2 e4d5",
    "7k/8/8/8/8/5n2/6P1/4K3 w - - 0 1: e1d1 e1f1 e1e2 e1f2 g2f3",
    "4k3/6p1/5N2/8/8/8/8/7K b - - 0 1: g7f6 e8e7 e8f7 e8d8 e8f8",
    // A pawn that can not answer a check, and a double check by pawn and rook.
    "7k/8/8/8/3P4/8/8/r3K3 w - - 0 1: e1d2 e1e2 e1f2",
    "8/8/4k3/3P4/8/8/8/K3R3 b - - 0 1: e6d5 e6f5 e6d6 e6f6 e6d7 e6f7",
];

#[test]
fn lists_pins_and_answers_to_checks_as_an_engine_does(rt: HostRuntime) -> Result<(), Fail> {
    for &row in &PINS {
        require_at(&rt, lists(rt.alloc(), row)?, row);
    }
    Ok(())
}

/// Promotions.
const PROMOTIONS: [&str; 16] = [
    // Promotion by advance, with and without check.
    "8/P6k/8/8/8/8/8/K7 w - - 0 1: a1b1 a1a2 a1b2 a7a8q a7a8r a7a8b a7a8n",
    "8/5KPk/8/8/8/8/8/8 w - - 0 1: f7e6 f7f6 f7e7 f7e8 f7f8 g7g8q g7g8r g7g8b g7g8n",
    "k7/4P3/8/8/8/8/8/7K w - - 0 1: h1g1 h1g2 h1h2 e7e8q e7e8r e7e8b e7e8n",
    "7k/8/8/8/8/8/p6K/8 b - - 0 1: a2a1q a2a1r a2a1b a2a1n h8g7 h8h7 h8g8",
    "8/PP6/8/8/8/8/8/K6k w - - 0 1: a1b1 a1a2 a1b2 a7a8q a7a8r a7a8b a7a8n b7b8q b7b8r b7b8b b7b8n",
    // Promotion by advance and by capture; blocked, by capture alone, or not at all.
    "3n3k/4P3/8/8/8/8/8/K7 w - - 0 1: a1b1 a1a2 a1b2 e7d8q e7d8r e7d8b e7d8n e7e8q e7e8r e7e8b e7e8n",
    "k7/8/8/8/8/8/4p3/K4R2 b - - 0 1: e2e1q e2e1r e2e1b e2e1n e2f1q e2f1r e2f1b e2f1n a8a7 a8b7 a8b8",
    "3rk3/4P3/8/8/8/8/8/K7 w - - 0 1: a1b1 a1a2 a1b2 e7d8q e7d8r e7d8b e7d8n",
    "8/8/8/8/8/8/1p5k/1KR5 b - - 0 1: b2c1q b2c1r b2c1b b2c1n h2g2 h2g3 h2h3",
    "4n2k/4P3/8/8/8/8/8/K7 w - - 0 1: a1b1 a1a2 a1b2",
    "8/8/8/8/8/8/4p3/K3k3 b - - 0 1: e1d1 e1f1 e1d2 e1f2",
    // Promotion out of check, by capturing the checking man or in its way; none where check would stand.
    "3r4/4P3/8/3K4/8/8/8/7k w - - 0 1: d5c4 d5e4 d5c5 d5e5 d5c6 d5e6 e7d8q e7d8r e7d8b e7d8n",
    "8/8/8/8/3k4/8/4p3/3R3K b - - 0 1: e2d1q e2d1r e2d1b e2d1n d4c3 d4e3 d4c4 d4e4 d4c5 d4e5",
    "K6r/4P3/8/8/8/8/8/7k w - - 0 1: e7e8q e7e8r e7e8b e7e8n a8a7 a8b7",
    "7K/8/8/8/8/8/4p3/k6R b - - 0 1: a1a2 a1b2 e2e1q e2e1r e2e1b e2e1n",
    "8/4P3/8/8/K6r/8/8/7k w - - 0 1: a4a3 a4b3 a4a5 a4b5",
];

#[test]
fn lists_promotions_as_an_engine_does(rt: HostRuntime) -> Result<(), Fail> {
    for &row in &PROMOTIONS {
        require_at(&rt, lists(rt.alloc(), row)?, row);
    }
    Ok(())
}

/// Kings beside pawns, stalemates and checkmates.
const KINGS: [&str; 17] = [
    // Kings in check by pawns, in front of them and beside them, on the last rank too.
    "7k/8/8/4p3/3K4/8/8/8 w - - 0 1: d4c3 d4d3 d4e3 d4c4 d4e4 d4c5 d4d5 d4e5",
    "8/8/8/4k3/4P3/8/8/7K b - - 0 1: e5d4 e5e4 e5f4 e5d6 e5e6 e5f6",
    "8/8/8/3kP3/8/8/8/7K b - - 0 1: d5c4 d5d4 d5e4 d5c5 d5e5 d5c6 d5e6",
    "1k6/3P4/8/8/8/8/8/K7 b - - 0 1: b8a7 b8b7 b8c7 b8a8",
    "8/8/8/8/8/3K4/1p6/7k w - - 0 1: d3c2 d3d2 d3e2 d3c3 d3e3 d3c4 d3d4 d3e4",
    // The king captures nothing that a pawn guards, which is what stands diagonally ahead of it and not straight
    // ahead.
    "8/8/8/4k3/4R3/3P4/8/7K b - - 0 1: e5d5 e5f5 e5d6 e5f6",
    "8/8/8/3k4/3N4/3P4/8/7K b - - 0 1: d5d4 d5c5 d5e5 d5d6",
    "8/8/8/3k4/4P3/3K4/8/8 b - - 0 1: d5c5 d5e5 d5c6 d5d6 d5e6",
    // A pawn on the files a and h guards nothing across the edge.
    "8/8/8/8/P7/6k1/8/K7 b - - 0 1: g3f2 g3g2 g3h2 g3f3 g3h3 g3f4 g3g4 g3h4",
    "8/1k6/8/8/7P/8/8/K7 b - - 0 1: b7a6 b7b6 b7c6 b7a7 b7c7 b7a8 b7b8 b7c8",
    "k7/8/8/p7/8/8/6K1/8 w - - 0 1: g2f1 g2g1 g2h1 g2f2 g2h2 g2f3 g2g3 g2h3",
    "8/8/1K6/7p/8/8/8/7k w - - 0 1: b6a5 b6b5 b6c5 b6a6 b6c6 b6a7 b6b7 b6c7",
    // Stalemate, with a blocked pawn or by one.
    "k7/p1K5/P7/8/8/8/8/8 b - - 0 1: ",
    "8/8/8/8/8/p7/P1k5/K7 w - - 0 1: ",
    "5k2/5P2/5K2/8/8/8/8/8 b - - 0 1: ",
    // Checkmate by a pawn.
    "7k/5KPp/8/8/8/8/8/8 b - - 0 1: ",
    "8/8/8/8/8/1k6/pp6/K7 w - - 0 1: ",
];

#[test]
fn lists_moves_of_kings_beside_pawns_as_an_engine_does(rt: HostRuntime) -> Result<(), Fail> {
    for &row in &KINGS {
        require_at(&rt, lists(rt.alloc(), row)?, row);
    }
    Ok(())
}
