//! Answers to whole inputs.
use crate::asserts::{require, require_at};
use egt_check::Library;
use egt_plain::shelf::{library_below, whole_library_below};
use egt_probe::answer;
use egt_table::{MemorySink, MemorySource};
use std::alloc::Global;
use std::process::Abort;
use std::test::*;

/// What is answered to the input.
pub(super) fn answered(alloc: Global, library: &Library, input: &[u8]) -> Result<Vec<u8>, Fail> {
    let mut sink = MemorySink::new(alloc, 100_000)?;
    answer(alloc, library, &mut MemorySource::new(input), &mut sink)?;
    Ok(Vec::from_slice(alloc, sink.bytes())?)
}

fn expect_answers(
    rt: &impl Abort,
    alloc: Global,
    library: &Library,
    cases: &[(&str, &str)],
) -> Result<(), Fail> {
    for &(input, output) in cases {
        let answer = answered(alloc, library, input.as_bytes())?;
        require_at(rt, answer.as_slice() == output.as_bytes(), input);
    }
    Ok(())
}

/// Each row is a FEN, a colon, and what is answered.
fn expect_rows(
    rt: &impl Abort,
    alloc: Global,
    library: &Library,
    rows: &[&str],
) -> Result<(), Fail> {
    for row in rows {
        let (fen, line) = row.split_once(": ").unwrap_or((row, ""));
        let answer = answered(alloc, library, fen.as_bytes())?;
        require_at(rt, answer.as_slice() == line.as_bytes(), row);
    }
    Ok(())
}

#[test]
fn queens(rt: HostRuntime) -> Result<(), Fail> {
    let library = library_below(rt.alloc(), 2)?;
    expect_rows(
        &rt,
        rt.alloc(),
        &library,
        &[
            "k7/1Q6/1K6/8/8/8/8/8 b - - 0 1: KQK white mates in 0 plies zeroing 0 line -\n",
            "k7/8/1K6/8/8/8/8/3Q4 w - - 0 1: KQK white mates in 1 plies zeroing 1 line d1d8\n",
            "k7/8/1K6/8/8/8/8/3Q4 b - - 0 1: KQK white mates in 2 plies zeroing 2 line a8b8 d1d8\n",
            "3q4/8/8/8/8/1k6/8/K7 b - - 0 1: KQK black mates in 1 plies zeroing 1 line d8d1\n",
            "k7/2Q5/8/8/8/8/8/4K3 b - - 0 1: KQK draw hold -\n",
            "8/8/8/8/8/8/1kQ5/7K b - - 0 1: KQK draw hold b2c2\n",
            "8/8/8/4k3/8/4K3/8/8 w - - 0 1: KK draw hold e3d2\n",
            "k7/8/1K6/8/8/8/8/3R4 w - - 0 1: error probe 11 Missing KRK\n",
            "k7/8/1K6/8/8/8/8/3RR3 w - - 0 1: error probe 11 Missing KRRK\n",
            "4k3/8/8/8/8/8/8/4K2R w KQkq - 0 1: error fen 4 Castling\n",
            "k7/8/8/8/8/8/8/R6K w - - 0 1: error fen 11 WaitingInCheck\n",
        ],
    )
}

// A stalemate is told as a draw, though it is dead, and so is a draw from which a mate may come.
#[test]
fn dead_positions(rt: HostRuntime) -> Result<(), Fail> {
    let library = whole_library_below(rt.alloc(), 2)?;
    expect_rows(
        &rt,
        rt.alloc(),
        &library,
        &[
            "8/8/8/4k3/8/4K3/8/8 w - - 0 1: KK dead hold e3d2\n",
            "k7/2Q5/8/8/8/8/8/4K3 b - - 0 1: KQK draw hold -\n",
            "8/8/8/8/8/8/1kQ5/7K b - - 0 1: KQK draw hold b2c2\n",
            "k7/8/1K6/8/8/8/8/3Q4 b - - 0 1: KQK white mates in 2 plies zeroing 2 line a8b8 d1d8\n",
        ],
    )
}

#[test]
fn pawns_and_knights(rt: HostRuntime) -> Result<(), Fail> {
    let library = library_below(rt.alloc(), 6)?;
    expect_rows(
        &rt,
        rt.alloc(),
        &library,
        &[
            "8/5KPk/8/8/8/8/8/8 w - - 0 1: KPK white mates in 3 plies zeroing 1 line g7g8q h7h6 g8g6\n",
            "8/8/8/3k4/8/3N4/3K4/8 w - - 0 1: KNK draw hold d2c1\n",
        ],
    )?;
    let passed = answered(rt.alloc(), &library, b"8/8/8/8/4P3/8/8/k1K5 b - e3 0 1")?;
    let quiet = answered(rt.alloc(), &library, b"8/8/8/8/4P3/8/8/k1K5 b - - 0 1")?;
    require(&rt, passed.as_slice() == quiet.as_slice());
    require(&rt, quiet.as_slice().starts_with(b"KPK "));
    Ok(())
}

#[test]
fn a_class_without_its_table(rt: HostRuntime) -> Result<(), Fail> {
    let library = library_below(rt.alloc(), 1)?;
    expect_answers(
        &rt,
        rt.alloc(),
        &library,
        &[(
            "k7/8/1K6/8/8/8/8/3Q4 w - - 0 1\n8/8/8/4k3/8/4K3/8/8 w - - 0 1\n",
            "error probe 11 Missing KQK\nKK draw hold e3d2\n",
        )],
    )
}

#[test]
fn ends_of_lines(rt: HostRuntime) -> Result<(), Fail> {
    let library = library_below(rt.alloc(), 1)?;
    expect_answers(
        &rt,
        rt.alloc(),
        &library,
        &[
            ("", ""),
            ("\n", "error fen 1 FieldCount\n"),
            ("\n\n", "error fen 1 FieldCount\nerror fen 1 FieldCount\n"),
            ("\r\n", "error fen 1 FieldCount\n"),
            ("\r", "error fen 1 FieldCount\n"),
            ("8/8/8/4k3/8/4K3/8/8 w - -", "KK draw hold e3d2\n"),
            ("8/8/8/4k3/8/4K3/8/8 w - -\r", "KK draw hold e3d2\n"),
            ("8/8/8/4k3/8/4K3/8/8 w - -\r\n", "KK draw hold e3d2\n"),
            (
                "8/8/8/4k3/8/4K3/8/8 w - -\nx\n8/8/8/4k3/8/4K3/8/8 w - -",
                "KK draw hold e3d2\nerror fen 1 FieldCount\nKK draw hold e3d2\n",
            ),
        ],
    )
}

#[test]
fn bytes_that_are_no_text(rt: HostRuntime) -> Result<(), Fail> {
    let library = library_below(rt.alloc(), 1)?;
    let answer = answered(rt.alloc(), &library, &[255, 0, 192, 10, 128])?;
    let right = answer.as_slice() == b"error fen 1 FieldCount\nerror fen 1 FieldCount\n".as_slice();
    require(&rt, right);
    Ok(())
}

/// A line of so many bytes `x`, and one that is answered.
fn behind_long(
    alloc: Global,
    library: &Library,
    length: usize,
    end: &[u8],
) -> Result<Vec<u8>, Fail> {
    let mut input = Vec::new(alloc);
    for _ in 0..length {
        input.push(b'x')?;
    }
    input.extend_from_slice(end)?;
    input.extend_from_slice(b"8/8/8/4k3/8/4K3/8/8 w - -\n")?;
    answered(alloc, library, &input)
}

#[test]
fn long_lines(rt: HostRuntime) -> Result<(), Fail> {
    let library = library_below(rt.alloc(), 1)?;
    let short: &[u8] = b"error fen 1 FieldCount\nKK draw hold e3d2\n";
    let long: &[u8] = b"error probe 14 LongLine\nKK draw hold e3d2\n";
    let cases: [(usize, &[u8], &[u8]); 7] = [
        (1023, b"\n", short),
        (1024, b"\n", short),
        (1025, b"\n", long),
        (1023, b"\r\n", short),
        (1024, b"\r\n", long),
        (5000, b"\n", long),
        (4096, b"\r\n", long),
    ];
    for &(length, end, expected) in &cases {
        let answer = behind_long(rt.alloc(), &library, length, end)?;
        require_at(&rt, answer.as_slice() == expected, length);
    }
    Ok(())
}

// Lines that lie across the pieces in which the input is read.
#[test]
fn many_lines(rt: HostRuntime) -> Result<(), Fail> {
    let alloc = rt.alloc();
    let library = library_below(alloc, 1)?;
    let mut input = Vec::new(alloc);
    let mut output = Vec::new(alloc);
    for _ in 0..1000 {
        input.extend_from_slice(b"8/8/8/4k3/8/4K3/8/8 w - -\n")?;
        output.extend_from_slice(b"KK draw hold e3d2\n")?;
    }
    let answer = answered(alloc, &library, &input)?;
    require(&rt, answer.as_slice() == output.as_slice());
    Ok(())
}
