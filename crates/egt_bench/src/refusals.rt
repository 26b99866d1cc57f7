//! A call made where a growth of memory may be refused, and made again: `scripts/refusals` refuses the growths one by
//! one.
use crate::growing::{
    Answer, Answered, Build, Expand, Growing, Line, Migrate, Nearest, NewLibrary, NewRounds, Read,
    Solve, Write,
};
use egt_check::Library;
use egt_class::{Class, by_name};
use egt_commands::descent::descendants;
use egt_fen::{Fen, read};
use egt_graph::{Ranks, Rounds};
use egt_sweep::{MateGame, ReachGame, build};
use egt_table::{Column, MemorySink, Table};
use std::alloc::Global;
use std::io;

/// A line of decisive positions with their reports, of drawn ones, and of ones that are refused.
const LINES: &[u8] = b"k7/8/1K6/8/8/8/8/3Q4 b - - 0 1\nx\n8/8/8/8/8/8/1kQ5/7K b - - 0 1\n\
k7/1Q6/1K6/8/8/8/8/8 b - - 0 1\nk7/2Q5/8/8/8/8/8/4K3 b - - 0 1\n8/8/8/4k3/8/4K3/8/8 w - - 0 1\n";

const REPORTS: &[u8] =
    b"KQK white mates in 2 plies zeroing 2 line a8b8 d1d8\nerror fen 1 FieldCount\n\
KQK draw hold b2c2\nKQK white mates in 0 plies zeroing 0 line -\nKQK draw hold -\nKK dead hold e3d2\n";

/// A position of KQK that White wins.
const LONG: &[u8] = b"8/8/8/3k4/8/8/8/KQ6 w - - 0 1";

/// How far a run goes: to before the call, to behind it, or to behind the second call, when it prints what both
/// answered.
#[derive(Clone, Copy, PartialEq, Eq)]
pub enum Stage {
    Before,
    Once,
    Twice,
}

impl Stage {
    /// The stage of that name.
    pub fn of(name: &str) -> Stage {
        match name {
            "before" => Stage::Before,
            "once" => Stage::Once,
            _ => Stage::Twice,
        }
    }
}

/// Prints what a call answered.
fn print_answer(rt: &HostRuntime, call: &str, answered: Answered) -> io::Result<()> {
    match answered {
        Answered::Something(number) => println!(rt; "{call}: {number}"),
        Answered::WantOfMemory => println!(rt; "{call}: want of memory"),
        Answered::Else => println!(rt; "{call}: something else"),
    }
}

/// Makes the call as far as the stage says.
fn run<G: Growing>(rt: &HostRuntime, growing: &mut G, stage: Stage) -> io::Result<()> {
    if stage == Stage::Before {
        return Ok(());
    }
    let first = growing.made(rt.alloc());
    if stage == Stage::Once {
        return Ok(());
    }
    print_answer(rt, "first", first)?;
    print_answer(rt, "then", growing.made(rt.alloc()))
}

/// Builds the tables of the classes wanted, each beside the others. Whether all were built.
fn fill(alloc: Global, wanted: &[bool; 36], library: &mut Library) -> bool {
    for number in 0..36u8 {
        if wanted[usize::from(number)] {
            match build(alloc, Class::at(number), library, 32_000) {
                Ok(table) => {
                    let _admitted = library.admit(table);
                }
                Err(_) => return false,
            }
        }
    }
    true
}

/// The bytes of the class's file.
fn file_of(alloc: Global, class: Class, library: &Library) -> io::Result<Vec<u8>> {
    let mut sink = MemorySink::new(alloc, 1_000_000)?;
    if let Some(table) = library.get(class) {
        let _written = table.write(&mut sink);
    }
    Ok(Vec::from_slice(alloc, sink.bytes())?)
}

/// The table without the column of the nearest mates.
fn without_reach(alloc: Global, table: &Table) -> io::Result<Table> {
    let mate = Vec::from_slice(alloc, table.entries(Column::Mate))?;
    let zeroing = Vec::from_slice(alloc, table.entries(Column::Zeroing))?;
    let mate = Ranks::from_entries(mate);
    let zeroing = Ranks::from_entries(zeroing);
    match Table::from_ranks(table.class(), mate, zeroing) {
        Ok(table) => Ok(table),
        Err(_columns) => Err(io::Error::from(io::ErrorKind::InvalidInput)),
    }
}

/// The position of a text that spells one.
fn position_of(text: &[u8]) -> io::Result<Fen> {
    match read(text) {
        Ok(fen) => Ok(fen),
        Err(_) => Err(io::Error::from(io::ErrorKind::InvalidInput)),
    }
}

/// Makes a call over the library's tables.
fn run_beside(
    rt: &HostRuntime,
    call: &str,
    class: Class,
    library: &Library,
    stage: Stage,
) -> io::Result<()> {
    let alloc = rt.alloc();
    match call {
        "read" => {
            let file = file_of(alloc, class, library)?;
            run(
                rt,
                &mut Read {
                    class,
                    file: file.as_slice(),
                },
                stage,
            )
        }
        "line" => run(
            rt,
            &mut Line {
                library,
                fen: position_of(LONG)?,
            },
            stage,
        ),
        "migrate" => {
            let mut tables = Vec::new(alloc);
            if let Some(table) = library.get(class) {
                for _ in 0..2 {
                    tables.push(without_reach(alloc, table)?)?;
                }
            }
            run(rt, &mut Migrate { library, tables }, stage)
        }
        "answer" => {
            let mut sinks = Vec::new(alloc);
            for _ in 0..2 {
                sinks.push(MemorySink::new(alloc, 1_000)?)?;
            }
            let mut answer = Answer {
                library,
                lines: LINES,
                reports: REPORTS,
                sinks,
            };
            run(rt, &mut answer, stage)
        }
        _ => println!(rt; "no call"),
    }
}

/// Makes a call over the class's game of mates.
fn run_over(
    rt: &HostRuntime,
    call: &str,
    class: Class,
    library: &Library,
    stage: Stage,
) -> io::Result<()> {
    let Ok(game) = MateGame::new(class, library) else {
        return println!(rt; "no game");
    };
    match call {
        "solve" => run(rt, &mut Solve { game: &game }, stage),
        "nearest" => run(rt, &mut Nearest { game: &game }, stage),
        "rounds" => run(rt, &mut NewRounds { game: &game }, stage),
        "expand" => {
            let rounds = Rounds::new(rt.alloc(), &game, 32_000)?;
            run(rt, &mut Expand { rounds }, stage)
        }
        _ => println!(rt; "no call"),
    }
}

/// Makes `nearest` over the class's game of the nearest mates.
fn run_over_reach(
    rt: &HostRuntime,
    class: Class,
    library: &Library,
    stage: Stage,
) -> io::Result<()> {
    match ReachGame::new(class, library) {
        Ok(game) => run(rt, &mut Nearest { game: &game }, stage),
        Err(_lacking) => println!(rt; "no game"),
    }
}

/// Makes the call of that name as far as the stage says: behind `build` stands the class that is built beside those
/// that it rests on, behind the others the class whose table or game they want.
pub fn refuse(rt: &HostRuntime, call: &str, class: &str, stage: Stage) -> io::Result<()> {
    let Some(class) = by_name(class) else {
        return println!(rt; "no class");
    };
    match call {
        "library" => return run(rt, &mut NewLibrary, stage),
        "write" => return run(
            rt,
            &mut Write {
                fen: position_of(LONG)?,
            },
            stage,
        ),
        _ => {}
    }
    let mut wanted = descendants(class);
    wanted[usize::from(class.number())] = matches!(call, "read" | "line" | "migrate" | "answer");
    let mut library = Library::new(rt.alloc())?;
    if !fill(rt.alloc(), &wanted, &mut library) {
        return println!(rt; "no table below the class");
    }
    match call {
        "build" => run(
            rt,
            &mut Build {
                library: &library,
                class,
            },
            stage,
        ),
        "read" | "line" | "migrate" | "answer" => run_beside(rt, call, class, &library, stage),
        "reach" => run_over_reach(rt, class, &library, stage),
        _ => run_over(rt, call, class, &library, stage),
    }
}
