//! The names of classes, and what moves lead from one to another.
mod descents;

use crate::asserts::{require, require_at};
use egt_class::{Class, by_name, name};

/// The names of the classes 0 to 17, and of 18 to 35.
const FIRST_NAMES: [&str; 18] = [
    "KK", "KQK", "KRK", "KBK", "KNK", "KPK", "KQQK", "KQRK", "KQBK", "KQNK", "KRRK", "KRBK",
    "KRNK", "KBBK", "KBNK", "KNNK", "KQKQ", "KQKR",
];

const LAST_NAMES: [&str; 18] = [
    "KQKB", "KQKN", "KRKR", "KRKB", "KRKN", "KBKB", "KBKN", "KNKN", "KQPK", "KRPK", "KBPK", "KNPK",
    "KQKP", "KRKP", "KBKP", "KNKP", "KPPK", "KPKP",
];

/// Whether the class of the number has the name, and no other class.
fn is_named(number: u8, text: &str) -> Option<bool> {
    let class = Class::new(number)?;
    let named = class.number() == number && name(class).as_str() == text;
    Some(named && by_name(text) == Some(class))
}

#[test]
fn names_are_those_of_the_men(rt: HostRuntime) {
    for (number, text) in (0..36u8).zip(FIRST_NAMES.iter().chain(&LAST_NAMES)) {
        require_at(&rt, is_named(number, text) == Some(true), text);
    }
    require(&rt, Class::new(36).is_none());
}

#[test]
fn other_words_are_no_names(rt: HostRuntime) {
    for &word in &[
        "", "K", "Q", "kqk", "KQk", "KKQ", "KKBB", "KRKQ", "KBQK", "KPQK", "KQKK", "KQQQK", "KQK ",
        " KQK", "KING", "KQRKP", "KK\n",
    ] {
        require_at(&rt, by_name(word).is_none(), word);
    }
}
