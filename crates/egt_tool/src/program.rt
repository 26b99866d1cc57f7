//! A run of the program on its words.
use crate::build::build_table;
use crate::migrate::migrate_table;
use crate::probe::probe_lines;
use crate::tool_fault::ToolFault;
use clap::ArgMatches;
use clap::error::ErrorKind;
use egt_class::{Class, by_name};
use egt_commands::check::{check_all, check_table};
use egt_commands::listing::print_classes;
use egt_commands::mate_text::print_mate;
use egt_commands::moves::print_moves;
use egt_commands::printer::Printer;
use egt_commands::stats::print_statistics;
use egt_commands::{RunFault, Status};
use egt_table::{Sink, Source};
use egt_usage::command;
use std::io::Write;
use std::rt::Files;

/// The most plies that a table has room for.
const LONGEST: u16 = 32_000;

/// A word of a command.
fn word<'a>(given: &ArgMatches<'a>, name: &str) -> &'a str {
    given.get_str(name).unwrap_or("")
}

/// The class that the word names, where there is one.
fn class_word(given: &ArgMatches<'_>) -> Result<Option<Class>, RunFault> {
    match given.get_str("CLASS") {
        Some(name) => match by_name(name) {
            Some(class) => Ok(Some(class)),
            None => Err(RunFault::NoSuchClass),
        },
        None => Ok(None),
    }
}

/// Runs a command that writes no file.
fn read_only<R: Files + AllocGlobal, I: Source, O: Sink>(
    rt: &R,
    name: &str,
    given: &ArgMatches<'_>,
    class: Option<Class>,
    input: &mut I,
    out: &mut O,
) -> Result<(), RunFault> {
    let folder = word(given, "DIR");
    match (name, class) {
        ("moves", _) => print_moves(rt.alloc(), word(given, "FEN"), out),
        ("search", _) => match given.get_one::<u8>("N") {
            Some(plies) if 1 <= plies && plies <= 6 => {
                print_mate(rt.alloc(), plies, word(given, "FEN"), out)
            }
            _ => Err(RunFault::Usage),
        },
        ("list", _) => print_classes(rt.alloc(), out),
        ("probe", _) => probe_lines(rt, folder, class, input, out),
        ("check", Some(class)) => check_table(rt, folder, class, out),
        ("check", None) => check_all(rt, folder, out),
        ("stats", Some(class)) => print_statistics(rt, folder, class, out),
        _ => Err(RunFault::Usage),
    }
}

/// Runs the command that the words ask for.
fn dispatch<R: Files + AllocGlobal, I: Source, O: Sink>(
    rt: &R,
    matches: &ArgMatches<'_>,
    input: &mut I,
    out: &mut O,
) -> Result<(), ToolFault> {
    let (name, given) = matches.subcommand().ok_or(RunFault::Usage)?;
    let class = class_word(given)?;
    let folder = word(given, "DIR");
    let limit = given.get_one::<u16>("limit").unwrap_or(LONGEST);
    match (name, class) {
        ("build", Some(class)) if limit <= LONGEST => build_table(rt, folder, class, limit, out),
        ("migrate", Some(class)) => migrate_table(rt, folder, class, out),
        _ => Ok(read_only(rt, name, given, class, input, out)?),
    }
}

/// Prints why the run ends. What becomes of that text changes no status.
fn report<E: Sink>(fault: ToolFault, err: &mut E) -> Status {
    let _ = writeln!(Printer::new(err), "{fault}");
    fault.status()
}

/// Prints what `clap` says of the words: help to the standard output, a mistake to the standard error.
fn explain<O: Sink, E: Sink>(said: &clap::Error, out: &mut O, err: &mut E) -> Status {
    if matches!(said.kind(), ErrorKind::OutOfMemory) {
        return report(ToolFault::Run(RunFault::NoMemory), err);
    }
    if said.use_stderr() {
        let _ = write!(Printer::new(err), "{said}");
        return Status::Usage;
    }
    match write!(Printer::new(out), "{said}") {
        Ok(()) => Status::Done,
        Err(_) => report(ToolFault::Run(RunFault::Device), err),
    }
}

/// Runs the program on its words, of which the first is its name, and answers its status: 0 where all was done, 1 where
/// an input or a table was refused, 2 for words that are no use of it, 3 where a file or a stream failed, 4 for want of
/// memory.
///
/// `input` is the standard input, `out` the standard output and `err` the standard error, to which go the text of
/// `clap` on wrong words and the line of an error. What becomes of a text on `err` changes no status.
pub fn run<R: Files + AllocGlobal, I: Source, O: Sink, E: Sink>(
    rt: &R,
    words: &[&str],
    input: &mut I,
    out: &mut O,
    err: &mut E,
) -> u8 {
    let status = match command(rt.alloc()) {
        Err(_) => report(ToolFault::Run(RunFault::NoMemory), err),
        Ok(command) => match command.try_get_matches_from(words) {
            Err(said) => explain(&said, out, err),
            Ok(matches) => match dispatch(rt, &matches, input, out) {
                Ok(()) => Status::Done,
                Err(fault) => report(fault, err),
            },
        },
    };
    status as u8
}
