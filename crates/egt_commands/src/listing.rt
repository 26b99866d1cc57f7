//! The classes of positions as text.
ghost use Rattle.std.specs.Prelude.{◌≡◌, ◌++◌, IfOk, OnOk};
ghost use Rattle.egt_commands.specs.Prelude.{class_line, lines_below};

use crate::printer::print;
use crate::run_fault::RunFault;
use egt_class::{Class, name};
use egt_fen::NoMemory;
use egt_index::size;
use egt_table::Sink;
use itoa::Buffer;
use std::alloc::{AllocError, Global};

/// Appends the class's number, its name and its size, with spaces between and a line feed after.
fn push_line(text: &mut Vec<u8>, class: Class) -> Result<(), AllocError>
    ensures { OnOk result (text.new.items ≡ text.old.items ++ class_line class) }
{
    let mut number = Buffer::new();
    text.extend_from_slice(number.format(class.number()).as_bytes())?;
    text.push(b' ')?;
    text.extend_from_slice(name(class).as_bytes())?;
    text.push(b' ')?;
    text.extend_from_slice(number.format(size(class)).as_bytes())?;
    text.push(b'\n')?;
    Ok(())
}

/// The lines of all classes.
fn lines(alloc: Global) -> Result<Vec<u8>, AllocError>
    ensures { IfOk result (λ text. text.items ≡ lines_below 36) }
{
    let mut text = Vec::new(alloc);
    for number in 0..36 {
        push_line(&mut text, Class::at(number))?;
    }
    Ok(text)
}

/// All classes in order of their numbers, each as its number, its name and the number of its codes, with a line feed
/// after each: `14 KBNK 5242880`.
///
/// # Errors
///
/// `NoMemory` where there is no memory for the text, and nowhere else.
pub fn list_text(alloc: Global) -> Result<Vec<u8>, NoMemory>
    ensures { IfOk result (λ text. text.items ≡ lines_below 36) }
{
    Ok(lines(alloc)?)
}

/// `egtb list`.
pub fn print_classes<O: Sink>(alloc: Global, out: &mut O) -> Result<(), RunFault> {
    print(out, &list_text(alloc)?)
}
