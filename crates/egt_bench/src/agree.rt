//! Fast forms against plain ones that walk the board. All codes of classes of two and three men are asked, and of
//! the others every so many.
mod codes;
mod damaged;
mod entries;
mod games;
mod judged;
mod moves;
mod sampled;
mod samples;
mod setup;
mod solved;
mod steps;
mod unmoves;

use damaged::damaged_agrees;
use egt_check::Library;
use egt_class::{Class, by_name, name};
use egt_commands::loading::load_whole;
use games::{mate_game_agrees, zero_game_agrees};
use sampled::samples_agree;
use samples::{Compared, agree};
use solved::solved_agrees;
use std::io;

/// The steps between the codes of a class of four men. They are odd, so that either side moves, with a target and
/// without, and primes, so that no digit keeps to few values.
const ENTRIES: u32 = 31;

const WALKS: u32 = 997;

/// How many tables of the class are changed: a thousand in the five classes of three men, 2,100 in the thirty of four.
fn damaged_tables(class: Class) -> u32 {
    if class.number() < 6 { 200 } else { 70 }
}

/// The step of the class.
fn step_of(class: Class, step: u32) -> u32 {
    if class.number() < 6 { 1 } else { step }
}

/// At how many codes everything agrees: entries, moves, moves backwards and games. Else what differs, and the first
/// code where.
fn compare(
    rt: &HostRuntime,
    class: Class,
    library: &Library,
) -> Result<(u32, u32), (&'static str, u32)> {
    let walks = step_of(class, WALKS);
    let entries = match agree(Compared::Entries, library, class, step_of(class, ENTRIES)) {
        Ok(codes) => codes,
        Err(code) => return Err(("entries", code)),
    };
    if let Err(code) = agree(Compared::Moves, library, class, walks) {
        return Err(("moves", code));
    }
    if let Err(code) = agree(Compared::Unmoves, library, class, walks) {
        return Err(("unmoves", code));
    }
    if let Err(code) = mate_game_agrees(class, library, walks) {
        return Err(("game of mates", code));
    }
    match zero_game_agrees(rt.alloc(), class, library, walks) {
        Ok(codes) => Ok((entries, codes)),
        Err(code) => Err(("game of zeroing moves", code)),
    }
}

/// Compares all of the class, and prints a line; whether all agrees.
fn print_class(rt: &HostRuntime, class: Class, library: &Library) -> io::Result<bool> {
    let compared = compare(rt, class, library);
    let class = name(class);
    match compared {
        Ok((entries, walks)) => {
            println!(rt; "{class} agrees: entries at {entries} codes, moves and games at {walks}")?;
            Ok(true)
        }
        Err((what, code)) => {
            println!(rt; "{class} differs: {what} at code {code}")?;
            Ok(false)
        }
    }
}

/// Solves both games over the class by counters, and prints a line; whether their ranks are what its table shows.
fn print_solved(rt: &HostRuntime, class: Class, library: &Library) -> io::Result<bool> {
    let solved = solved_agrees(rt.alloc(), class, library);
    let class = name(class);
    match solved {
        Ok(indexes) => {
            println!(rt; "{class} solved: ranks at {indexes} indexes")?;
            Ok(true)
        }
        Err(index) => {
            println!(rt; "{class} differs: rank at index {index}")?;
            Ok(false)
        }
    }
}

/// Has the checker judge tables of the class with entries changed, and prints a line; whether it names what the plain
/// rules do.
fn print_damaged(rt: &HostRuntime, class: Class, library: &Library) -> io::Result<bool> {
    let damaged = damaged_agrees(rt.alloc(), class, library, damaged_tables(class));
    let class = name(class);
    match damaged {
        Ok(tables) => {
            println!(rt; "{class} damaged: {tables} tables")?;
            Ok(true)
        }
        Err((unlike, code)) => {
            let why = unlike.text();
            println!(rt; "{class} differs: table changed at code {code}: {why}")?;
            Ok(false)
        }
    }
}

/// What is done with the class.
#[derive(Clone, Copy)]
pub enum Task {
    Compare,
    Solve,
    Damage,
}

/// Reads the tables of the class of that name and of those below it, and does the task; whether all agrees.
pub fn run(rt: &HostRuntime, folder: &str, class: &str, task: Task) -> io::Result<bool> {
    let Some(class) = by_name(class) else {
        println!(rt; "no class")?;
        return Ok(false);
    };
    let Ok(library) = load_whole(rt, folder, class) else {
        println!(rt; "a table was refused")?;
        return Ok(false);
    };
    match task {
        Task::Compare => print_class(rt, class, &library),
        Task::Solve => print_solved(rt, class, &library),
        Task::Damage => print_damaged(rt, class, &library),
    }
}

/// Compares the samples, and prints a line; whether they agree.
pub fn print_sampled(rt: &HostRuntime) -> io::Result<bool> {
    let agrees = samples_agree(rt.alloc()) == Some(true);
    println!(rt;
        "samples of all classes {}",
        if agrees { "agree" } else { "differ" }
    )?;
    Ok(agrees)
}
