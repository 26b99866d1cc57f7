//! Product tables filled from plain ones.
use crate::code::{PlainPosition, THIRD, code_count};
use crate::tables::PlainTables;
use egt_board::{Kind, Man, Position, Side, Square};
use egt_class::{Class, of};
use egt_graph::{Nears, Ranks};
use egt_index::{index, size};
use egt_table::{Column, Table};
use std::alloc::{AllocError, AllocFailed, Global};
use thiserror::Error;

/// What keeps a table from being filled.
#[derive(Clone, Copy, Debug, PartialEq, Eq, Error)]
pub enum Unlike {
    /// A code is a position for one of the two and not for the other.
    #[error("a code is a position on one side alone")]
    Position,
    /// Two codes of one index have different entries.
    #[error("two codes of one index have different entries")]
    Entry,
    /// A growth of memory was refused.
    #[error("out of memory")]
    NoMemory,
}

impl From<AllocError> for Unlike {
    fn from(_error: AllocError) -> Unlike {
        Unlike::NoMemory
    }
}

impl<T: Drop> From<AllocFailed<T>> for Unlike {
    fn from(_error: AllocFailed<T>) -> Unlike {
        Unlike::NoMemory
    }
}

/// A man and its square.
fn man_on(side: Side, kind: Kind, square: u8) -> Option<(Man, Square)> {
    Some((Man { side, kind }, Square::new(square)?))
}

/// The side to move.
fn side_of(plain: PlainPosition) -> Side {
    if plain.black_moves {
        Side::Black
    } else {
        Side::White
    }
}

/// The position as the product has it, if it takes it for one.
pub fn position_of(plain: PlainPosition) -> Option<Position> {
    let white = man_on(Side::White, Kind::K, plain.white_king)?;
    let black = man_on(Side::Black, Kind::K, plain.black_king)?;
    let made = match plain.third {
        Some((kind, square)) => {
            let third = man_on(Side::White, kind, square)?;
            Position::new(&[white, black, third], side_of(plain), None)
        }
        None => Position::new(&[white, black], side_of(plain), None),
    };
    made.ok()
}

/// The class's number and the plain code of a position with at most three men: the settled form, with colours flipped
/// where Black has the third man. None for more men, and for a class from 6 on.
pub fn plain_code(position: &Position) -> Option<(usize, usize)> {
    let (_, flipped) = of(position);
    let turned = if flipped {
        position.flip_colours()
    } else {
        *position
    };
    let mut third = None;
    for (man, square) in turned.men().as_slice() {
        if man.kind != Kind::K {
            if third.is_some() {
                return None;
            }
            third = Some((man.kind, square.number()));
        }
    }
    let plain = PlainPosition {
        white_king: turned.king(Side::White).number(),
        black_king: turned.king(Side::Black).number(),
        third,
        black_moves: turned.side() == Side::Black,
    };
    let class = THIRD
        .iter()
        .position(|kind| *kind == third.map(|(kind, _)| kind))?;
    Some((class, plain.code()))
}

/// For each plain code of a class, by number, the product's index of its position, or none where it is no position.
///
/// # Errors
///
/// `Position` where a code is a position here and not for the product, or the other way, and for a class from 6 on;
/// `NoMemory` where a growth was refused.
fn indexes(alloc: Global, class: u8) -> Result<Vec<Option<u32>>, Unlike> {
    let Some(asked) = Class::new(class) else {
        return Err(Unlike::Position);
    };
    let Some(third) = THIRD.get(usize::from(class)) else {
        return Err(Unlike::Position);
    };
    let mut indexes = Vec::with_capacity(alloc, code_count(*third))?;
    for code in 0..code_count(*third) {
        let plain = PlainPosition::of_code(*third, code);
        let position = position_of(plain);
        if position.is_some() != plain.is_position() {
            return Err(Unlike::Position);
        }
        indexes.push(match position {
            Some(position) => Some(index_in(asked, &position)?),
            None => None,
        })?;
    }
    Ok(indexes)
}

/// The product's index of a position, which is to be of the class.
fn index_in(asked: Class, position: &Position) -> Result<u32, Unlike> {
    let (class, _) = of(position);
    if class != asked {
        return Err(Unlike::Position);
    }
    Ok(index(class, position))
}

/// Puts an entry where there is none yet, or the same.
fn put(column: &mut [u16], index: u32, entry: u16) -> Result<(), Unlike> {
    match column.get_mut(index as usize) {
        Some(place) if *place == 0 || *place == entry => {
            *place = entry;
            Ok(())
        }
        _ => Err(Unlike::Entry),
    }
}

/// A column of a class as the product has it: the entry of each code that is a position, at its index.
fn filled(
    alloc: Global,
    class: Class,
    indexes: &[Option<u32>],
    entries: &[u16],
) -> Result<Vec<u16>, Unlike> {
    let mut column = vec![in alloc; 0; size(class) as usize]?;
    if entries.len() != indexes.len() {
        return Err(Unlike::Position);
    }
    for (index, entry) in indexes.iter().zip(entries) {
        if let Some(index) = index {
            put(&mut column, *index, *entry)?;
        }
    }
    Ok(column)
}

/// The product's table of a class that was solved, by number, without the column of the nearest mates.
///
/// # Errors
///
/// What `indexes` refuses, and `Entry` where two codes have one index and different entries.
pub fn table_of(alloc: Global, tables: &PlainTables, class: u8) -> Result<Table, Unlike> {
    let indexes = indexes(alloc, class)?;
    let Some(asked) = Class::new(class) else {
        return Err(Unlike::Position);
    };
    let mate = tables.entries(usize::from(class), Column::Mate);
    let zeroing = tables.entries(usize::from(class), Column::Zeroing);
    let mate = Ranks::from_entries(filled(alloc, asked, &indexes, mate)?);
    let zeroing = Ranks::from_entries(filled(alloc, asked, &indexes, zeroing)?);
    match Table::from_ranks(asked, mate, zeroing) {
        Ok(table) => Ok(table),
        Err(_columns) => Err(Unlike::Position),
    }
}

/// The column of the nearest mates of a class that was solved.
fn reaches(alloc: Global, tables: &PlainTables, class: Class) -> Result<Nears, Unlike> {
    let indexes = indexes(alloc, class.number())?;
    let entries = tables.entries(usize::from(class.number()), Column::Reach);
    Ok(Nears::from_entries(filled(alloc, class, &indexes, entries)?))
}

/// The product's table of a class that was solved, by number, with all three columns.
///
/// # Errors
///
/// What `table_of` refuses.
pub fn whole_table_of(alloc: Global, tables: &PlainTables, class: u8) -> Result<Table, Unlike> {
    let table = table_of(alloc, tables, class)?;
    let reaches = reaches(alloc, tables, table.class())?;
    match table.with_reach(reaches) {
        Ok(table) => Ok(table),
        Err(_both) => Err(Unlike::Position),
    }
}
