//! A library is made, filled, asked for its classes, and goes.
ghost use Rattle.std.specs.Prelude.{◌≡◌, ◌<◌, ◌≤◌, None, IfSome, IfNone};
ghost use Rattle.egt_c.specs.Prelude.{arc_value, loaded_in, Opens, Shares, Adds, level, closed, contents};

use crate::fault::EgtbFault;
use crate::handle::{EgtbLibrary, Owner};
use egt_check::Library;
use egt_class::Class;
use egt_table::{MemorySource, Table};
use std::alloc::Global;
use std::sync::Arc;

/// Opens a library without tables in place of what was kept there. Refuses for want of memory alone.
#[unsafe(no_mangle)]
pub extern "C" fn egtb_open(alloc: Global, library: &mut EgtbLibrary) -> EgtbFault
    ensures { Opens result (contents library.old) (contents library.new) }
{
    let Ok(made) = Library::new(alloc) else {
        return EgtbFault::no_memory();
    };
    let Ok(owner) = Arc::new(alloc, made) else {
        return EgtbFault::no_memory();
    };
    let Ok(boxed) = Box::new(alloc, owner) else {
        return EgtbFault::no_memory();
    };
    library.put(alloc, boxed);
    EgtbFault::none()
}

/// Has the other keep the library too.
fn share_with(alloc: Global, owner: &Owner, other: &mut EgtbLibrary) -> EgtbFault
    ensures { Shares (arc_value owner.now) result (contents other.old) (contents other.new) }
{
    let Ok(again) = Arc::try_clone(owner) else {
        return EgtbFault::no_memory();
    };
    let Ok(boxed) = Box::new(alloc, again) else {
        return EgtbFault::no_memory();
    };
    other.put(alloc, boxed);
    EgtbFault::none()
}

/// Opens the same library a second time, in place of what was kept there, so that two threads may ask it at once.
#[unsafe(no_mangle)]
pub extern "C" fn egtb_share(
    alloc: Global,
    library: &mut EgtbLibrary,
    other: &mut EgtbLibrary,
) -> EgtbFault
    ensures shares { IfSome (contents library.old)
        (λ places. Shares places result (contents other.old) (contents other.new)) }
    ensures closed { IfNone (contents library.old) ((result ≡ closed) × (contents other.new ≡ contents other.old)) }
    ensures kept { contents library.new ≡ contents library.old }
{
    match library.owner() {
        Some(owner) => share_with(alloc, owner, other),
        None => EgtbFault::closed(),
    }
}

/// Closes a library, whose tables go. One that is closed stays so.
#[unsafe(no_mangle)]
pub extern "C" fn egtb_close(alloc: Global, library: &mut EgtbLibrary)
    ensures { contents library.new ≡ None }
{
    let _library = library.take(alloc);
}

/// Reads the bytes as the file of a table of the class, and has the library take it.
fn add_class(alloc: Global, library: &mut Library, class: Class, bytes: &[u8]) -> EgtbFault
    ensures { Adds class bytes.now result library.old library.new }
{
    let table = match Table::read(alloc, class, &mut MemorySource::new(bytes)) {
        Ok(table) => table,
        Err(fault) => return EgtbFault::of_file(fault),
    };
    match library.admit(table) {
        Ok(()) => EgtbFault::none(),
        Err((_table, reject)) => EgtbFault::of_check(reject),
    }
}

/// Reads the bytes as the file of a table of the class with this number, and has the library take it.
fn add_numbered(alloc: Global, library: &mut Library, class_number: u8, bytes: &[u8]) -> EgtbFault
    ensures { Adds class_number bytes.now result library.old library.new }
{
    match Class::new(class_number) {
        Some(class) => add_class(alloc, library, class, bytes),
        None => EgtbFault::no_class(),
    }
}

/// Adds the file to the library where it has one owner.
fn add_owned(alloc: Global, owner: &mut Owner, class_number: u8, bytes: &[u8]) -> EgtbFault
    ensures { Adds class_number bytes.now result (arc_value owner.old) (arc_value owner.new) }
{
    match Arc::get_mut(owner) {
        Some(library) => add_numbered(alloc, library, class_number, bytes),
        None => EgtbFault::shared(),
    }
}

/// Reads the bytes as the file of a table of the class, checks it beside the tables that are there, and takes it.
#[unsafe(no_mangle)]
pub extern "C" fn egtb_add(
    alloc: Global,
    library: &mut EgtbLibrary,
    class_number: u8,
    bytes: &[u8],
) -> EgtbFault
    ensures adds { IfSome (contents library.old)
        (λ before. IfSome (contents library.new) (λ after. Adds class_number bytes.now result before after)) }
    ensures open { IfSome (contents library.old) (λ before. IfNone (contents library.new) ⊥) }
    ensures closed { IfNone (contents library.old) ((result ≡ closed) × (contents library.new ≡ None)) }
{
    let Some(mut boxed) = library.take(alloc) else {
        return EgtbFault::closed();
    };
    let fault = add_owned(alloc, boxed.as_mut(), class_number, bytes);
    library.put(alloc, boxed);
    fault
}

/// Whether the class of a number is loaded, and whether its table has the column of the nearest mates.
fn level_in(library: &Library, class_number: u8) -> u8
    ensures class { class_number < 36 → result ≡ level (loaded_in library.now class_number) }
    ensures no_class { 36 ≤ class_number → result ≡ 0 }
{
    let Some(class) = Class::new(class_number) else {
        return 0;
    };
    match library.get(class) {
        None => 0,
        Some(table) => { if table.has_reach() { 2 } else { 1 } }
    }
}

/// 0 where the class is not loaded, 1 where it is, and 2 where its table has the column of the nearest mates. A closed
/// library has none.
#[unsafe(no_mangle)]
pub extern "C" fn egtb_loaded(library: &mut EgtbLibrary, class_number: u8) -> u8
    ensures level { class_number < 36 →
        IfSome (contents library.old) (λ places. result ≡ level (loaded_in places class_number)) }
    ensures no_class { 36 ≤ class_number → result ≡ 0 }
    ensures closed { IfNone (contents library.old) (result ≡ 0) }
    ensures kept { contents library.new ≡ contents library.old }
{
    match library.owner() {
        Some(owner) => level_in(owner, class_number),
        None => 0,
    }
}
