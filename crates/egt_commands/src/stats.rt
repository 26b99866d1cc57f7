//! The statistics of a table as text.
ghost use Rattle.std.specs.Prelude.{◌≡◌, ◌++◌, OnOk, IfOk};
ghost use Rattle.egt_commands.specs.Statistics.{TellsStatistics, line_of, number_or_none, lines_of};

use crate::loading::load_whole;
use crate::printer::print;
use crate::run_fault::RunFault;
use crate::statistics::Statistics;
use egt_class::{Class, name};
use egt_fen::NoMemory;
use egt_table::{Sink, Table};
use itoa::Buffer;
use std::alloc::{AllocError, Global};
use std::rt::Files;

/// Appends a line of a name and what is told of it.
fn push_line(text: &mut Vec<u8>, name: &str, told: &[u8]) -> Result<(), AllocError>
    ensures { OnOk result (text.new.items ≡ text.old.items ++ line_of name.now told.now) }
{
    text.extend_from_slice(name.as_bytes())?;
    text.push(b' ')?;
    text.extend_from_slice(told)?;
    text.push(b'\n')?;
    Ok(())
}

/// Appends a line of a number.
fn push_number(text: &mut Vec<u8>, name: &str, number: u32) -> Result<(), AllocError>
    ensures { OnOk result (text.new.items ≡ text.old.items ++ line_of name.now (number_or_none (Some number))) }
{
    push_line(text, name, Buffer::new().format(number).as_bytes())
}

/// Appends a line of a number, or of a hyphen where there is none.
fn push_number_or_none(
    text: &mut Vec<u8>,
    name: &str,
    number: Option<u32>,
) -> Result<(), AllocError>
    ensures { OnOk result (text.new.items ≡ text.old.items ++ line_of name.now (number_or_none number)) }
{
    match number {
        Some(number) => push_number(text, name, number),
        None => push_line(text, name, b"-"),
    }
}

/// The number of plies as one that is printed.
fn widened(plies: Option<u16>) -> Option<u32>
    ensures { result ≡ plies }
{
    match plies {
        Some(plies) => Some(u32::from(plies)),
        None => None,
    }
}

/// The nine lines of the statistics of a class's table.
fn lines(alloc: Global, class: Class, statistics: &Statistics) -> Result<Vec<u8>, AllocError>
    ensures { IfOk result (λ text. text.items ≡ lines_of class statistics.now) }
{
    let mut text = Vec::new(alloc);
    push_line(&mut text, "class", name(class).as_bytes())?;
    push_number(&mut text, "entries", statistics.entries)?;
    push_number(&mut text, "void", statistics.void)?;
    push_number(&mut text, "draws", statistics.draws)?;
    push_number(&mut text, "wins", statistics.wins)?;
    push_number(&mut text, "losses", statistics.losses)?;
    push_number_or_none(&mut text, "longest win", widened(statistics.longest_win))?;
    push_number_or_none(&mut text, "longest loss", widened(statistics.longest_loss))?;
    push_number_or_none(&mut text, "dead", statistics.dead)?;
    Ok(text)
}

/// What the table says in all, as nine lines: `class`, `entries`, `void`, `draws`, `wins`, `losses`, `longest win`,
/// `longest loss` and `dead`, each with a space, its value and a line feed; the value is `-` where there is no win, no
/// loss or no column of the nearest mates.
///
/// # Errors
///
/// `NoMemory` where there is no memory for the text, and nowhere else.
pub fn stats_text(alloc: Global, table: &Table) -> Result<Vec<u8>, NoMemory>
    ensures { IfOk result (λ text. TellsStatistics table.now text.items) }
{
    Ok(lines(alloc, table.class(), &Statistics::of(table))?)
}

/// `egtb stats DIR CLASS`.
pub fn print_statistics<R: Files + AllocGlobal, O: Sink>(
    rt: &R,
    folder: &str,
    class: Class,
    out: &mut O,
) -> Result<(), RunFault> {
    let library = load_whole(rt, folder, class)?;
    let table = library.get(class).unwrap();
    print(out, &stats_text(rt.alloc(), table)?)
}
