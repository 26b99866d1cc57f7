//! Reports of positions by the tables in files.
use egt_check::Library;
use egt_class::Class;
use egt_commands::RunFault;
use egt_commands::loading::load_whole;
use egt_commands::present::load_all;
use egt_probe::{AnswerFault, answer};
use egt_table::{Sink, Source};
use std::rt::Files;

/// The tables of the class and of those that it rests on, or of all files of the folder where no class is given.
fn load<R: Files + AllocGlobal>(
    rt: &R,
    folder: &str,
    class: Option<Class>,
) -> Result<Library, RunFault> {
    match class {
        Some(class) => load_whole(rt, folder, class),
        None => load_all(rt, folder),
    }
}

/// `egtb probe DIR [CLASS]`: a report for each line of the input. Lines that are refused have reports too.
pub(crate) fn probe_lines<R: Files + AllocGlobal, I: Source, O: Sink>(
    rt: &R,
    folder: &str,
    class: Option<Class>,
    input: &mut I,
    out: &mut O,
) -> Result<(), RunFault> {
    let library = load(rt, folder, class)?;
    match answer(rt.alloc(), &library, input, out) {
        Ok(()) => Ok(()),
        Err(AnswerFault::Device) => Err(RunFault::Device),
        Err(AnswerFault::NoMemory) => Err(RunFault::NoMemory),
    }
}
