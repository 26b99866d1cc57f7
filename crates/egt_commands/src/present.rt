//! The tables of all files that a folder has, read into a library.
ghost use Rattle.std.specs.Prelude.{◌≡◌, ◌⊎◌, IfOk, IsSome, IsTrue};
ghost use Rattle.egt_commands.specs.Prelude.{table_at, HasExactly};

use crate::descent::descendants;
use crate::loading::{load, open};
use crate::run_fault::RunFault;
use egt_check::Library;
use egt_class::Class;
use std::rt::Files;

/// The least class that captures and promotions lead to from this one and that has no table in the library.
fn first_absent(class: Class, library: &Library) -> Option<Class> {
    let wanted = descendants(class);
    for number in 0..36 {
        if wanted[usize::from(number)] && library.get(Class::at(number)).is_none() {
            return Some(Class::at(number));
        }
    }
    None
}

/// Reads the class's table and has it admitted where its file is there, and answers whether it is. Each class rests on
/// two kings, so their file has to be there.
pub(crate) fn load_present<R: Files + AllocGlobal>(
    rt: &R,
    folder: &str,
    class: Class,
    library: &mut Library,
) -> Result<bool, RunFault>
    ensures { IfOk result (λ loaded. HasExactly (table_at library.new)
        (λ d. IsSome (table_at library.old d) ⊎ (IsTrue loaded × (d ≡ class)))) }
{
    if class.number() > 0 && open(rt, folder, class).err() == Some(RunFault::NoFile(class)) {
        return Ok(false);
    }
    if let Some(absent) = first_absent(class, library) {
        return Err(RunFault::NoFile(absent));
    }
    load(rt, folder, class, library)?;
    Ok(true)
}

/// Reads the tables of all classes whose files are there, in ascending number, and has each admitted, up to the first
/// fault.
pub fn load_all<R: Files + AllocGlobal>(rt: &R, folder: &str) -> Result<Library, RunFault> {
    let mut library = Library::new(rt.alloc())?;
    for number in 0..36 {
        load_present(rt, folder, Class::at(number), &mut library)?;
    }
    Ok(library)
}
