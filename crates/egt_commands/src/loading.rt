//! Tables read from the files of a folder into a library.
ghost use Rattle.std.specs.Prelude.{◌≡◌, ◌⊎◌, IfOk, OnOk, IsSome};
ghost use Rattle.egt_commands.specs.Prelude.{table_at, Descends, HasExactly};

use crate::descent::descendants;
use crate::run_fault::RunFault;
use egt_check::Library;
use egt_class::laws::children_have_smaller_numbers;
use egt_class::{Class, name};
use egt_table::{FromStd, Table};
use std::alloc::{AllocError, Global};
use std::fs;
use std::io::ErrorKind;
use std::path::{Path, PathBuf};
use std::rt::Files;

/// The path of the class's file in the folder.
pub(crate) fn path_of(alloc: Global, folder: &str, class: Class) -> Result<PathBuf, AllocError> {
    let mut file = String::from_str(alloc, name(class).as_str())?;
    file.push_str(".egt")?;
    Path::new(folder).join(alloc, file.as_str())
}

/// Opens the class's file.
pub(crate) fn open<R: Files + AllocGlobal>(
    rt: &R,
    folder: &str,
    class: Class,
) -> Result<R::File, RunFault> {
    let path = path_of(rt.alloc(), folder, class)?;
    match fs::open(rt, path.as_path()) {
        Ok(file) => Ok(file),
        Err(error) => Err(match error.kind() {
            ErrorKind::NotFound | ErrorKind::NotADirectory => RunFault::NoFile(class),
            ErrorKind::OutOfMemory => RunFault::NoMemory,
            _ => RunFault::Device,
        }),
    }
}

/// Reads the class's table from its file, straight into the columns.
pub fn read<R: Files + AllocGlobal>(rt: &R, folder: &str, class: Class) -> Result<Table, RunFault>
    ensures { IfOk result (λ t. t.class ≡ class) }
{
    let mut source = FromStd::new(open(rt, folder, class)?);
    match Table::read(rt.alloc(), class, &mut source) {
        Ok(table) => Ok(table),
        Err(fault) => Err(RunFault::of_file(class, fault)),
    }
}

/// Reads the class's table and has it admitted.
pub(crate) fn load<R: Files + AllocGlobal>(
    rt: &R,
    folder: &str,
    class: Class,
    library: &mut Library,
) -> Result<(), RunFault>
    ensures { OnOk result (HasExactly (table_at library.new) (λ d. IsSome (table_at library.old d) ⊎ (d ≡ class))) }
{
    let table = read(rt, folder, class)?;
    if let Err((_table, reject)) = library.admit(table) {
        return Err(RunFault::Check(class, reject));
    }
    Ok(())
}

/// Reads the tables of all classes that captures and promotions lead to from this one, in ascending number, and has
/// each admitted, up to the first fault.
pub fn load_below<R: Files + AllocGlobal>(
    rt: &R,
    folder: &str,
    class: Class,
) -> Result<Library, RunFault>
    ensures { IfOk result (λ l. HasExactly (table_at l) (Descends class)) }
{
    children_have_smaller_numbers();
    let _below = class.number();
    let mut library = Library::new(rt.alloc())?;
    let wanted = descendants(class);
    for number in 0..36 {
        if wanted[usize::from(number)] {
            load(rt, folder, Class::at(number), &mut library)?;
        }
    }
    Ok(library)
}

/// Reads the tables of all classes that captures and promotions lead to from this one, and then its own.
pub fn load_whole<R: Files + AllocGlobal>(
    rt: &R,
    folder: &str,
    class: Class,
) -> Result<Library, RunFault>
    ensures { IfOk result (λ l. HasExactly (table_at l) (λ d. Descends class d ⊎ (d ≡ class))) }
{
    let mut library = load_below(rt, folder, class)?;
    load(rt, folder, class, &mut library)?;
    Ok(library)
}
