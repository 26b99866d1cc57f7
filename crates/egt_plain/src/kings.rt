//! The table of two kings: each position is a draw where the kings do not touch. A code is void where they do, or where
//! another code is less and spells the same position in another image.
use crate::code::touch;
use crate::shelf::file_of;
use egt_class::Class;
use egt_graph::{Nears, Ranks};
use egt_table::{NoMemory, Table};
use std::alloc::Global;
use std::test::Fail;

/// How many codes two kings have.
pub const SIZE: u32 = 1280;

/// How many bytes their table's file has, without the column of the nearest mates.
pub const LENGTH: usize = 5136;

/// How many it has with that column.
pub const WHOLE_LENGTH: usize = 7696;

/// The squares of the triangle a1 d1 d4.
const TRIANGLE: [u8; 10] = [0, 1, 2, 3, 9, 10, 11, 18, 19, 27];

/// The square under one of the eight symmetries of the board.
fn turned(square: u8, symmetry: u8) -> u8 {
    let file = square % 8;
    let rank = square / 8 % 8;
    let file = if symmetry % 2 == 1 { 7 - file } else { file };
    let rank = if symmetry / 2 % 2 == 1 {
        7 - rank
    } else {
        rank
    };
    if symmetry / 4 % 2 == 1 {
        8 * file + rank
    } else {
        8 * rank + file
    }
}

/// The code that has the white king in the triangle.
fn code(white: u8, black: u8, side: u32) -> Option<u32> {
    let mut digit = 0u32;
    for &square in &TRIANGLE {
        if square == white {
            return Some(
                digit
                    .wrapping_mul(128)
                    .wrapping_add(2 * u32::from(black))
                    .wrapping_add(side),
            );
        }
        digit = digit.wrapping_add(1);
    }
    None
}

/// The entry of a code in each column: 1 for a draw, which is a dead position, 0 where it is void.
pub fn entry(own: u32) -> u16 {
    let white = TRIANGLE[(own / 128 % 10) as usize];
    let black = (own / 2 % 64) as u8;
    let side = own % 2;
    if touch(white, black) {
        return 0;
    }
    for symmetry in 0..8u8 {
        let one = turned(white, symmetry);
        let other = turned(black, symmetry);
        if code(one, other, side).is_some_and(|image| image < own)
            || code(other, one, 1 - side).is_some_and(|image| image < own)
        {
            return 0;
        }
    }
    1
}

fn entries(alloc: Global) -> Result<Vec<u16>, NoMemory> {
    let mut entries = Vec::new(alloc);
    for code in 0..SIZE {
        entries.push(entry(code))?;
    }
    Ok(entries)
}

/// Changes the bits of a byte.
pub fn flip(bytes: &mut [u8], place: usize, bits: u8) {
    if let Some(byte) = bytes.get_mut(place) {
        *byte ^= bits;
    }
}

pub fn class() -> Class {
    Class::at(0)
}

/// The table of two kings, with another entry at some codes of each column.
pub fn table_with(
    alloc: Global,
    mate: &[(u32, u16)],
    zeroing: &[(u32, u16)],
) -> Result<Table, Fail> {
    let mate = Ranks::from_entries(changed(entries(alloc)?, mate));
    let zeroing = Ranks::from_entries(changed(entries(alloc)?, zeroing));
    match Table::from_ranks(class(), mate, zeroing) {
        Ok(table) => Ok(table),
        Err(_columns) => Err(Fail::from("a column of another length")),
    }
}

/// The table of two kings with all three columns, with another entry at some codes of each.
pub fn whole_table_with(
    alloc: Global,
    mate: &[(u32, u16)],
    zeroing: &[(u32, u16)],
    reach: &[(u32, u16)],
) -> Result<Table, Fail> {
    let nears = Nears::from_entries(changed(entries(alloc)?, reach));
    match table_with(alloc, mate, zeroing)?.with_reach(nears) {
        Ok(table) => Ok(table),
        Err(_both) => Err(Fail::from("a column of another length")),
    }
}

fn changed(mut entries: Vec<u16>, changes: &[(u32, u16)]) -> Vec<u16> {
    for &(code, other) in changes {
        if let Some(entry) = entries.get_mut(code as usize) {
            *entry = other;
        }
    }
    entries
}

/// The file of the table of two kings.
pub fn kings_file(alloc: Global) -> Result<Vec<u8>, Fail> {
    let table = table_with(alloc, &[], &[])?;
    file_of(alloc, &table)
}

/// The file of their table with the column of the nearest mates.
pub fn whole_kings_file(alloc: Global) -> Result<Vec<u8>, Fail> {
    let table = whole_table_with(alloc, &[], &[], &[])?;
    file_of(alloc, &table)
}
