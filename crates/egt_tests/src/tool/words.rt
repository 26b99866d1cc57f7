//! Words that are no use of the program, and the program's number.
use super::{is_wrong, prints};
use crate::asserts::{require, require_at};

#[test]
fn wrong_words(rt: HostRuntime) {
    let wrong: [&[&str]; 14] = [
        &[],
        &["castle"],
        &["moves"],
        &["moves", "k7", "w"],
        &["check"],
        &["stats"],
        &["check", ".", "KK", "KK"],
        // An empty name of a folder.
        &["build", "", "KK"],
        &["migrate", "", "KK"],
        &["check", "", "KK"],
        &["check", ""],
        &["stats", "", "KK"],
        &["probe", "", "KK"],
        &["probe", ""],
    ];
    for words in &wrong {
        require_at(&rt, is_wrong(&rt, words) == Some(true), words);
    }
}

#[test]
fn the_number_of_the_program(rt: HostRuntime) {
    let right = prints(&rt, &["--version"], 0, "egtb 1.0\n", "") == Some(true);
    require(&rt, right);
}
