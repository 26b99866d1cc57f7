//! Measures, comparisons and refusals for scripts, which no command of `egtb` shows. Nothing here judges a figure.
//!
//! - `table DIR CLASS` builds the class's table and checks it beside those that it rests on, read from the folder's
//!   files, prints how long both take and how much memory was in use at most, and writes the file.
//! - `lines MEN`, with men as `KQkr`, prints FENs of positions drawn at random.
//! - `refusals CALL CLASS STAGE` makes a call in which a growth of memory may be refused, and makes it again.
//! - `agree DIR CLASS` reads the tables of the class and of those that it rests on, and prints that the entries of the
//!   class's codes are what those of the positions after each legal move give, and that what codes spell, legal moves,
//!   moves backwards and both games over the class are the plain ones; or the first code at which one of them differs,
//!   and then its status is 1.
//! - `sampled` asks this of fewer codes, with no folder, and holds what the checker names of changed tables of few men
//!   against the rules asked plainly; it prints that they agree.
//! - `solved DIR CLASS` solves both games over the class by counters, which takes a while for four men, and holds their
//!   ranks against its table.
//! - `damaged DIR CLASS` changes entries of the class's table at random, and holds what the checker names against the
//!   rules asked plainly.
#![tactic(auto)]

mod agree;
mod growing;
mod lines;
mod refusals;
mod sample;
mod tables;

use agree::{Task, print_sampled, run};
use lines::print_lines;
use refusals::{Stage, refuse};
use std::process::ExitCode;
use std::{env, io};
use tables::bench_table;

/// Does what the words say. Whether all that was compared agrees.
fn dispatch(rt: &HostRuntime, words: &[&str]) -> io::Result<bool> {
    match words {
        ["table", folder, class] => bench_table(rt, folder, class)?,
        ["lines", men] => print_lines(rt, men)?,
        ["refusals", call, class, stage] => refuse(rt, call, class, Stage::of(stage))?,
        ["agree", folder, class] => return run(rt, folder, class, Task::Compare),
        ["solved", folder, class] => return run(rt, folder, class, Task::Solve),
        ["damaged", folder, class] => return run(rt, folder, class, Task::Damage),
        ["sampled"] => return print_sampled(rt),
        _ => println!(rt; "the words are told at the head of crates/egt_bench/src/main.rt")?,
    }
    Ok(true)
}

fn main(rt: HostRuntime) -> io::Result<ExitCode> {
    let mut given = Vec::new(rt.alloc());
    for word in env::args(&rt)? {
        given.push(word)?;
    }
    let mut words = Vec::new(rt.alloc());
    for word in given.iter().skip(1) {
        words.push(word.as_str())?;
    }
    let agrees = dispatch(&rt, words.as_slice())?;
    Ok(ExitCode::from(if agrees { 0 } else { 1 }))
}
