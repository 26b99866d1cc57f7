//! Tables with entries changed at random: what the checker names of each, against the rules asked plainly.
use crate::agree::codes::{Spelled, spelling};
use crate::agree::entries::entry_at;
use crate::agree::judged::{Change, Changed, SpelledOtherwise};
use crate::agree::steps::steps;
use egt_check::{Library, Reject, Rule, check};
use egt_class::Class;
use egt_graph::{Nears, Ranks};
use egt_index::size;
use egt_table::{Column, Table};
use std::alloc::{AllocError, Global};

/// Why the checker does not judge changed tables as the plain rules do.
#[derive(Clone, Copy, Debug, PartialEq, Eq)]
pub enum Unlike {
    /// It takes what they refuse, refuses what they take, or names another entry or another rule.
    Judged,
    /// It says that a child has no table.
    Missing,
    /// It says that a child's table lacks the column of the nearest mates.
    NoReach,
    /// It says that the library has a table of the class.
    AlreadyThere,
    /// A code spells something else than it does plainly.
    Spelled,
    /// The table was not made: the library lacks what is to be changed, or there is no memory.
    NotMade,
    /// No table was refused.
    NoneRefused,
}

impl Unlike {
    /// What is printed of it.
    pub fn text(self) -> &'static str {
        match self {
            Unlike::Judged => "judged otherwise",
            Unlike::Missing => "a child is missing",
            Unlike::NoReach => "a child lacks the third column",
            Unlike::AlreadyThere => "the table is there already",
            Unlike::Spelled => "a code spells something else",
            Unlike::NotMade => "the table was not made",
            Unlike::NoneRefused => "no table was refused",
        }
    }
}

impl From<SpelledOtherwise> for Unlike {
    fn from(_otherwise: SpelledOtherwise) -> Unlike {
        Unlike::Spelled
    }
}

/// A sequence of numbers that look random (Marsaglia's xorshift).
#[derive(Drop)]
struct Numbers {
    last: u32,
}

impl Numbers {
    fn next(&mut self) -> u32 {
        let mut number = self.last;
        number ^= number << 13;
        number ^= number >> 17;
        number ^= number << 5;
        self.last = number;
        number
    }

    /// A number below the end.
    fn below(&mut self, end: u32) -> u32 {
        self.next().checked_rem(end).unwrap_or(0)
    }

    /// The column to change: seldom that of zeroing moves, since the checker then looks at every entry.
    fn column(&mut self) -> Column {
        match self.below(16) {
            0 => Column::Zeroing,
            1..=8 => Column::Mate,
            _ => Column::Reach,
        }
    }

    /// The code to change: mostly one of the first, since the checker then looks at few entries.
    fn code(&mut self, class: Class) -> u32 {
        let size = size(class);
        match self.below(32) {
            0 => self.below(size),
            _ => self.below(size.min(1 << 18)),
        }
    }

    /// What is put in the place of an entry: numbers near it, at the ends of what entries show, and any.
    fn entry(&mut self, entry: u16) -> u16 {
        match self.below(16) {
            0 => 0,
            1 => 1,
            2 => 2,
            3 => 3,
            4 => entry.wrapping_add(1),
            5 => entry.wrapping_sub(1),
            6 => entry.wrapping_add(2),
            7 => entry.wrapping_sub(2),
            8 => 254,
            9 => 255,
            10 => 256,
            11 => 64_003,
            12 => 64_004,
            13 => 65_535,
            _ => (self.next() % 65_536) as u16,
        }
    }
}

/// The index of a position of the class that the move with this number leads to, if the code's position has such a
/// move.
fn successor(class: Class, code: u32, number: u32) -> Option<u32> {
    let Spelled::Position(position) = spelling(class, code) else {
        return None;
    };
    let steps = steps(&position);
    let number = number.checked_rem(steps.len() as u32)?;
    let step = steps.as_slice().get(number as usize)?;
    if step.class.number() == class.number() {
        Some(step.index)
    } else {
        None
    }
}

/// A change of one entry or, half of the time, of that of a successor too by the same amount, so that one may hide the
/// other.
fn change_at_random<'l>(
    library: &'l Library,
    class: Class,
    numbers: &mut Numbers,
) -> Option<Changed<'l>> {
    let column = numbers.column();
    let code = numbers.code(class);
    let right = entry_at(library, column, class, code)?;
    let entry = numbers.entry(right);
    let first = Change { code, entry };
    let number = numbers.below(64);
    let second = match successor(class, code, number) {
        Some(next) if number % 2 == 0 && next != code => {
            let other = entry_at(library, column, class, next)?;
            Change {
                code: next,
                entry: other.wrapping_add(entry.wrapping_sub(right)),
            }
        }
        _ => first,
    };
    Some(Changed {
        library,
        class,
        column,
        changes: [first, second],
    })
}

/// The column of the table with its changes.
fn changed(alloc: Global, changed: &Changed<'_>, column: Column) -> Result<Vec<u16>, AllocError> {
    let size = size(changed.class);
    let mut entries = Vec::with_capacity(alloc, size as usize)?;
    for code in 0..size {
        entries.push(changed.entry(column, changed.class, code))?;
    }
    Ok(entries)
}

/// The table with the changes, where there is memory.
fn table_of(alloc: Global, changes: &Changed<'_>) -> Option<Table> {
    let mate = Ranks::from_entries(changed(alloc, changes, Column::Mate).ok()?);
    let zeroing = Ranks::from_entries(changed(alloc, changes, Column::Zeroing).ok()?);
    let reach = Nears::from_entries(changed(alloc, changes, Column::Reach).ok()?);
    let table = Table::from_ranks(changes.class, mate, zeroing).ok()?;
    table.with_reach(reach).ok()
}

/// The entry and the rule that the checker names; none where it takes the table.
fn named(alloc: Global, changes: &Changed<'_>) -> Result<Option<(u32, Rule)>, Unlike> {
    let Some(table) = table_of(alloc, changes) else {
        return Err(Unlike::NotMade);
    };
    match check(&table, changes.library) {
        Ok(()) => Ok(None),
        Err(
            Reject::Rejected {
                column,
                index,
                rule,
            },
        ) => {
            if column == changes.column {
                Ok(Some((index, rule)))
            } else {
                Err(Unlike::Judged)
            }
        }
        Err(Reject::Missing(_)) => Err(Unlike::Missing),
        Err(Reject::NoReach(_)) => Err(Unlike::NoReach),
        Err(Reject::AlreadyThere) => Err(Unlike::AlreadyThere),
    }
}

/// Whether the table is refused, by the checker as by the plain rules.
fn is_refused(alloc: Global, changes: &Changed<'_>) -> Result<bool, Unlike> {
    let named = named(alloc, changes)?;
    if named == changes.first_broken()? {
        Ok(named.is_some())
    } else {
        Err(Unlike::Judged)
    }
}

/// The entries that are put in the place of one of two kings: of no position, of a draw and of a checkmate.
const TRIED: [u16; 3] = [0, 1, 3];

/// Whether the checker judges the table of two kings as the plain rules do with each third entry changed; else why it
/// does not, and the code.
pub fn kings_damaged_agree(alloc: Global, library: &Library) -> Result<(), (Unlike, u32)> {
    let class = Class::at(0);
    for code in (0..size(class)).filter(|code| code % 3 == 0) {
        for column in Column::ALL {
            for entry in TRIED {
                let changes = Changed {
                    library,
                    class,
                    column,
                    changes: [Change { code, entry }; 2],
                };
                if let Err(unlike) = is_refused(alloc, &changes) {
                    return Err((unlike, code));
                }
            }
        }
    }
    Ok(())
}

/// How many changed tables of the class, so many, the checker judges as the plain rules do; else why it does not, and
/// the first code that was changed there.
pub fn damaged_agrees(
    alloc: Global,
    class: Class,
    library: &Library,
    count: u32,
) -> Result<u32, (Unlike, u32)> {
    let mut numbers = Numbers {
        last: 2_463_534_242 ^ u32::from(class.number()),
    };
    let mut tables = 0u32;
    let mut refused = 0u32;
    for _ in 0..count {
        let Some(changes) = change_at_random(library, class, &mut numbers) else {
            return Err((Unlike::NotMade, 0));
        };
        match is_refused(alloc, &changes) {
            Ok(is_refused) => refused = refused.wrapping_add(u32::from(is_refused)),
            Err(unlike) => return Err((unlike, changes.changes[0].code)),
        }
        tables = tables.wrapping_add(1);
    }
    if refused == 0 {
        Err((Unlike::NoneRefused, 0))
    } else {
        Ok(tables)
    }
}
