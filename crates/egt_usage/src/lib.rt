//! The words that the program `egtb` understands, and its help; apart, so that the long proof of the parser of `clap`
//! runs beside others.
#![tactic(auto)]

use clap::builder::ValueParser;
use clap::{Arg, Command, value_parser};
use std::alloc::{AllocError, Global};

/// The number that `egtb --version` prints. The library for C has it too, as `EGTB_VERSION`.
pub const VERSION: &str = "1.0";

/// A command, where there was memory for it.
type Made<'a> = Result<Command<'a>, AllocError>;

/// The word that is a position.
fn fen_word<'a>(alloc: Global) -> Arg<'a> {
    Arg::new(alloc, "FEN")
        .help("A position in Forsyth-Edwards notation, as one word in quotation marks")
        .required(true)
}

/// The word that is a folder's name.
fn folder_word<'a>(alloc: Global) -> Arg<'a> {
    Arg::new(alloc, "DIR")
        .help("The folder of the tables' files: DIR/KQK.egt is that of KQK")
        .required(true)
        .value_parser(ValueParser::NonEmptyString)
}

/// The word that is a class's name, which a command may do without.
fn class_word<'a>(alloc: Global, required: bool) -> Arg<'a> {
    Arg::new(alloc, "CLASS")
        .help("A class of positions by its men, as KQK or KRKP: egtb list prints all names")
        .required(required)
}

/// The word that is a number of plies to search.
fn plies_word<'a>(alloc: Global) -> Arg<'a> {
    Arg::new(alloc, "N")
        .help("How many plies to search, from 1 to 6")
        .required(true)
        .value_parser(value_parser!(u8).range(1..7))
}

/// The word of `--limit`.
fn limit_word<'a>(alloc: Global) -> Arg<'a> {
    Arg::new(alloc, "limit")
        .long("limit")
        .value_name("N")
        .help("The most plies that a mate may take, from 0 to 32000, which is the default")
        .value_parser(value_parser!(u16).range(0..32001))
}

/// The command with one word more. Here and below what failed is handed on, so that nothing is left to drop where the
/// next call fails: such proofs are short.
fn with_word<'a>(command: Made<'a>, word: Arg<'a>) -> Made<'a> {
    match command {
        Ok(command) => command.arg(word),
        Err(fault) => Err(fault),
    }
}

/// The command with the words of a folder and a class, which it may do without.
fn of_class<'a>(alloc: Global, command: Command<'a>, required: bool) -> Made<'a> {
    with_word(command.arg(folder_word(alloc)), class_word(alloc, required))
}

fn moves_command<'a>(alloc: Global) -> Made<'a> {
    Command::new(alloc, "moves")
        .about("Prints the legal moves, one a line")
        .after_help(
            "Example: egtb moves \"8/8/8/8/8/8/8/r2K3k w - - 0 1\" prints d1c2, d1d2 and d1e2\n\
             Status: 0 done, 1 the FEN is refused",
        )
        .arg(fen_word(alloc))
}

fn search_command<'a>(alloc: Global) -> Made<'a> {
    let command = Command::new(alloc, "search")
        .about("Searches for a mate within so many plies")
        .after_help(
            "Example: egtb search 2 \"k7/8/1K6/8/8/8/8/3Q4 b - - 0 1\" prints white mates in 2 plies\n\
             Status: 0 done, 1 the FEN is refused",
        )
        .arg(plies_word(alloc));
    with_word(command, fen_word(alloc))
}

fn list_command<'a>(alloc: Global) -> Command<'a> {
    Command::new(alloc, "list")
        .about("Prints the classes: number, name and size")
        .after_help("Example: egtb list prints 36 lines, the first of them 0 KK 1280")
}

fn build_command<'a>(alloc: Global) -> Made<'a> {
    let command = Command::new(alloc, "build")
        .about("Builds the table of a class from those of its children")
        .after_help(
            "Example: egtb build tables KQK, after egtb build tables KK\n\
             Status: 0 the file is written, 1 a file that it needs is not there, is refused or lacks the column of \
             the nearest mates, or a mate is deeper than N",
        );
    with_word(of_class(alloc, command, true), limit_word(alloc))
}

fn probe_command<'a>(alloc: Global) -> Made<'a> {
    let command = Command::new(alloc, "probe")
        .about("Reports of each FEN of the standard input, one a line")
        .after_help(
            "Example: echo \"k7/8/1K6/8/8/8/8/3Q4 b - - 0 1\" | egtb probe tables KQK\n\
             Without CLASS the tables of all files in DIR answer\n\
             Status: 0 each line has its report, 1 a file that it needs is not there or is refused",
        );
    of_class(alloc, command, false)
}

fn check_command<'a>(alloc: Global) -> Made<'a> {
    let command = Command::new(alloc, "check")
        .about("Checks the table of a class and all that it rests on")
        .after_help(
            "Example: egtb check tables KQK prints ok KQK\n\
             Without CLASS it checks all files in DIR\n\
             Status: 0 every entry is right, 1 a file that it needs is not there or is refused",
        );
    of_class(alloc, command, false)
}

fn migrate_command<'a>(alloc: Global) -> Made<'a> {
    let command = Command::new(alloc, "migrate")
        .about("Gives the table of a class the column of the nearest mates, if it lacks it")
        .after_help(
            "Example: egtb migrate tables KNK, after egtb migrate tables KK\n\
             Status: 0 the file has the column, 1 a file that it needs is not there, is refused or lacks the column",
        );
    of_class(alloc, command, true)
}

fn stats_command<'a>(alloc: Global) -> Made<'a> {
    let command = Command::new(alloc, "stats")
        .about("Prints how many positions of a class are won, drawn, lost and dead")
        .after_help(
            "Example: egtb stats tables KQK\nStatus: 0 done, 1 a file that it needs is not there or is refused",
        );
    of_class(alloc, command, true)
}

/// The program by itself, before it has commands.
fn program<'a>(alloc: Global) -> Command<'a> {
    Command::new(alloc, "egtb")
        .version(VERSION)
        .about("Chess endgame tables of two to four men")
        .after_help(
            "egtb COMMAND --help tells more of a command\n\
             A class rests on those that a capture or a promotion leads to: build these first, KK before all\n\
             Status: 0 done, 1 an input or a table is refused, 2 wrong words, 3 a file or a stream failed, 4 no \
             memory",
        )
        .subcommand_required(true)
}

/// The program with one command more.
fn with<'a>(program: Made<'a>, command: Made<'a>) -> Made<'a> {
    match command {
        Ok(command) => program?.subcommand(command),
        Err(fault) => Err(fault),
    }
}

/// All commands of the program, of which each run has one, as `clap` reads words by them. Want of memory is the only
/// fault.
pub fn command<'a>(alloc: Global) -> Result<Command<'a>, AllocError> {
    let program = with(Ok(program(alloc)), moves_command(alloc));
    let program = with(program, search_command(alloc));
    let program = with(program, Ok(list_command(alloc)));
    let program = with(program, build_command(alloc));
    let program = with(program, check_command(alloc));
    let program = with(program, migrate_command(alloc));
    let program = with(program, probe_command(alloc));
    with(program, stats_command(alloc))
}
