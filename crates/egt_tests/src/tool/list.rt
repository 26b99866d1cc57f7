//! The list of classes.
use super::{is_wrong, run_on};
use crate::asserts::{require, require_at};
use egt_commands::list_text;
use std::test::Fail;

/// The lines of the list.
const FIRST_LINES: [&str; 18] = [
    "0 KK 1280",
    "1 KQK 81920",
    "2 KRK 81920",
    "3 KBK 81920",
    "4 KNK 81920",
    "5 KPK 196608",
    "6 KQQK 5242880",
    "7 KQRK 5242880",
    "8 KQBK 5242880",
    "9 KQNK 5242880",
    "10 KRRK 5242880",
    "11 KRBK 5242880",
    "12 KRNK 5242880",
    "13 KBBK 5242880",
    "14 KBNK 5242880",
    "15 KNNK 5242880",
    "16 KQKQ 5242880",
    "17 KQKR 5242880",
];

const LAST_LINES: [&str; 18] = [
    "18 KQKB 5242880",
    "19 KQKN 5242880",
    "20 KRKR 5242880",
    "21 KRKB 5242880",
    "22 KRKN 5242880",
    "23 KBKB 5242880",
    "24 KBKN 5242880",
    "25 KNKN 5242880",
    "26 KQPK 12582912",
    "27 KRPK 12582912",
    "28 KBPK 12582912",
    "29 KNPK 12582912",
    "30 KQKP 12582912",
    "31 KRKP 12582912",
    "32 KBKP 12582912",
    "33 KNKP 12582912",
    "34 KPPK 9437184",
    "35 KPKP 18874368",
];

#[test]
fn lists_the_classes(rt: HostRuntime) -> Result<(), Fail> {
    let text = list_text(rt.alloc())?;
    let mut lines = text.split(|byte| *byte == b'\n');
    for line in FIRST_LINES.iter().chain(&LAST_LINES) {
        require_at(&rt, lines.next() == Some(line.as_bytes()), line);
    }
    require(&rt, lines.next() == Some(b"") && lines.next().is_none());
    Ok(())
}

/// Whether the text is what `list` prints.
fn is_printed(rt: &HostRuntime, text: &[u8]) -> Option<bool> {
    let ran = run_on(rt, &["list"], b"")?;
    Some(ran.status == 0 && ran.out.bytes() == text && ran.err.bytes().is_empty())
}

#[test]
fn prints_the_list(rt: HostRuntime) -> Result<(), Fail> {
    let text = list_text(rt.alloc())?;
    require(&rt, is_printed(&rt, &text) == Some(true));
    Ok(())
}

#[test]
fn takes_no_word_more(rt: HostRuntime) {
    require(&rt, is_wrong(&rt, &["list", "KQK"]) == Some(true));
}
