//! The calls in which a growth of memory may be refused, each with what it is made on. What a call answers is told by a
//! number.
use egt_check::{Library, check};
use egt_class::Class;
use egt_fen::{Fen, write};
use egt_graph::{Game, Nears, Ranks, Rounds, SolveFault, nearest, solve};
use egt_probe::{AnswerFault, LineFault, answer, line};
use egt_sweep::{BuildFault, MateGame, MigrateFault, build, migrate};
use egt_table::{Column, FileFault, MemorySink, MemorySource, Table};
use std::alloc::Global;

/// A limit that no mate of a class reaches, in plies.
const LIMIT: u16 = 32_000;

/// What a call answered.
#[derive(Clone, Copy)]
pub enum Answered {
    /// Something, of which this number tells.
    Something(u64),
    WantOfMemory,
    /// What it should not have answered.
    Else,
}

/// A call that can be made again.
pub trait Growing {
    fn made(&mut self, alloc: Global) -> Answered;
}

/// Mixes a number into another.
fn mixed(sum: u64, number: u64) -> u64 {
    sum.wrapping_mul(0x0100_0000_01b3).wrapping_add(number)
}

fn of_bytes(bytes: &[u8]) -> Answered {
    let mut sum = 0;
    for byte in bytes {
        sum = mixed(sum, u64::from(*byte));
    }
    Answered::Something(sum)
}

/// Mixes all entries into a number.
fn mixed_all(sum: u64, entries: &[u16]) -> u64 {
    let mut sum = sum;
    for entry in entries {
        sum = mixed(sum, u64::from(*entry));
    }
    sum
}

fn of_entries(entries: &[u16]) -> Answered {
    Answered::Something(mixed_all(0, entries))
}

fn of_ranks(ranks: &Ranks) -> Answered {
    of_entries(ranks.entries())
}

fn of_nears(nears: &Nears) -> Answered {
    of_entries(nears.entries())
}

fn of_table(table: &Table) -> Answered {
    let mut sum = mixed_all(0, table.entries(Column::Mate));
    sum = mixed_all(sum, table.entries(Column::Zeroing));
    if table.has_reach() {
        sum = mixed_all(sum, table.entries(Column::Reach));
    }
    Answered::Something(sum)
}

/// `Library::new`.
#[derive(Drop)]
pub struct NewLibrary;

impl Growing for NewLibrary {
    fn made(&mut self, alloc: Global) -> Answered {
        match Library::new(alloc) {
            Ok(library) => Answered::Something(u64::from(library.get(Class::at(0)).is_some())),
            Err(_refused) => Answered::WantOfMemory,
        }
    }
}

/// `Table::read` of a class's file.
#[derive(Drop)]
pub struct Read<'a> {
    pub class: Class,
    pub file: &'a [u8],
}

impl Growing for Read<'_> {
    fn made(&mut self, alloc: Global) -> Answered {
        match Table::read(alloc, self.class, &mut MemorySource::new(self.file)) {
            Ok(table) => of_table(&table),
            Err(FileFault::NoMemory) => Answered::WantOfMemory,
            Err(_) => Answered::Else,
        }
    }
}

/// `write` of a FEN.
#[derive(Drop)]
pub struct Write {
    pub fen: Fen,
}

impl Growing for Write {
    fn made(&mut self, alloc: Global) -> Answered {
        match write(alloc, &self.fen) {
            Ok(text) => of_bytes(text.as_slice()),
            Err(_refused) => Answered::WantOfMemory,
        }
    }
}

/// `line` of a decisive position.
#[derive(Drop)]
pub struct Line<'a> {
    pub library: &'a Library,
    pub fen: Fen,
}

impl Growing for Line<'_> {
    fn made(&mut self, alloc: Global) -> Answered {
        match line(alloc, self.library, &self.fen.position) {
            Ok(moves) => {
                let mut sum = 0;
                for chess_move in moves.as_slice() {
                    sum = mixed(sum, u64::from(chess_move.from.number()));
                    sum = mixed(sum, u64::from(chess_move.to.number()));
                }
                Answered::Something(sum)
            }
            Err(LineFault::NoMemory) => Answered::WantOfMemory,
            Err(_) => Answered::Else,
        }
    }
}

/// `answer` to lines that have these reports, into sinks that were made before.
#[derive(Drop)]
pub struct Answer<'a> {
    pub library: &'a Library,
    pub lines: &'a [u8],
    pub reports: &'a [u8],
    pub sinks: Vec<MemorySink>,
}

/// Whether the text is whole reports of a beginning of the lines.
fn begins(text: &[u8], reports: &[u8]) -> bool {
    reports.starts_with(text) && text.last().is_none_or(|byte| *byte == b'\n')
}

impl Growing for Answer<'_> {
    fn made(&mut self, alloc: Global) -> Answered {
        let Some(mut sink) = self.sinks.pop() else {
            return Answered::Else;
        };
        let answered = answer(
            alloc,
            self.library,
            &mut MemorySource::new(self.lines),
            &mut sink,
        );
        match answered {
            Ok(()) if sink.bytes() == self.reports => of_bytes(sink.bytes()),
            Err(AnswerFault::NoMemory) if begins(sink.bytes(), self.reports) => {
                Answered::WantOfMemory
            }
            _ => Answered::Else,
        }
    }
}

/// `build` of a class.
#[derive(Drop)]
pub struct Build<'a> {
    pub library: &'a Library,
    pub class: Class,
}

impl Growing for Build<'_> {
    fn made(&mut self, alloc: Global) -> Answered {
        match build(alloc, self.class, self.library, LIMIT) {
            Ok(table) => of_table(&table),
            Err(BuildFault::NoMemory) => Answered::WantOfMemory,
            Err(_) => Answered::Else,
        }
    }
}

/// `migrate` of tables that were made before, of a class without the column of the nearest mates.
#[derive(Drop)]
pub struct Migrate<'a> {
    pub library: &'a Library,
    pub tables: Vec<Table>,
}

impl Growing for Migrate<'_> {
    fn made(&mut self, alloc: Global) -> Answered {
        let Some(table) = self.tables.pop() else {
            return Answered::Else;
        };
        if check(&table, self.library).is_err() {
            return Answered::Else;
        }
        match migrate(alloc, table, self.library) {
            Ok(table) => of_table(&table),
            Err((_table, MigrateFault::NoMemory)) => Answered::WantOfMemory,
            Err(_) => Answered::Else,
        }
    }
}

/// `solve` of a class's game of mates.
#[derive(Drop)]
pub struct Solve<'a, 'l> {
    pub game: &'a MateGame<'l>,
}

impl Growing for Solve<'_, '_> {
    fn made(&mut self, alloc: Global) -> Answered {
        match solve(alloc, self.game, LIMIT) {
            Ok(ranks) => of_ranks(&ranks),
            Err(SolveFault::NoMemory) => Answered::WantOfMemory,
            Err(_) => Answered::Else,
        }
    }
}

/// `nearest` over a game.
#[derive(Drop)]
pub struct Nearest<'a, G> {
    pub game: &'a G,
}

impl<G: Game> Growing for Nearest<'_, G> {
    fn made(&mut self, alloc: Global) -> Answered {
        match nearest(alloc, self.game) {
            Ok(nears) => of_nears(&nears),
            Err(SolveFault::NoMemory) => Answered::WantOfMemory,
            Err(_) => Answered::Else,
        }
    }
}

/// `Rounds::new` over a class's game of mates.
#[derive(Drop)]
pub struct NewRounds<'a, 'l> {
    pub game: &'a MateGame<'l>,
}

impl Growing for NewRounds<'_, '_> {
    fn made(&mut self, alloc: Global) -> Answered {
        match Rounds::new(alloc, self.game, LIMIT) {
            Ok(rounds) => Answered::Something(mixed(
                u64::from(rounds.blocks()),
                u64::from(rounds.round()),
            )),
            Err(_refused) => Answered::WantOfMemory,
        }
    }
}

/// `expand` of each block of its first round.
#[derive(Drop)]
pub struct Expand<'a, 'l> {
    pub rounds: Rounds<'a, MateGame<'l>>,
}

impl Growing for Expand<'_, '_> {
    fn made(&mut self, alloc: Global) -> Answered {
        let mut sum = u64::from(self.rounds.round());
        for block in 0..self.rounds.blocks() {
            let Ok(batch) = self.rounds.expand(alloc, block) else {
                return Answered::WantOfMemory;
            };
            for (place, node) in batch.nodes().iter().enumerate() {
                sum = mixed(sum, u64::from(*node));
                sum = mixed(sum, batch.targets(place).len() as u64);
            }
            sum = mixed(sum, u64::from(self.rounds.posted(block)));
        }
        Answered::Something(sum)
    }
}
