//! Text that goes to a sink.
use crate::run_fault::RunFault;
use egt_table::Sink;
use std::alloc::AllocError;
use std::io::{self, ErrorKind, Write};

/// A sink as a writer of the standard library.
#[derive(Drop)]
pub struct Printer<'a, S: Sink> {
    sink: &'a mut S,
}

impl<'a, S: Sink> Printer<'a, S> {
    /// A writer to the sink.
    pub fn new(sink: &'a mut S) -> Self {
        Printer { sink }
    }
}

impl<S: Sink> Write for Printer<'_, S> {
    fn write(&mut self, piece: &[u8]) -> io::Result<usize> {
        match self.sink.push(piece) {
            Ok(n) => Ok(n),
            Err(_) => Err(io::Error::from(ErrorKind::Other)),
        }
    }

    fn flush(&mut self) -> io::Result<()> {
        Ok(())
    }
}

/// Prints a whole text.
pub fn print<S: Sink>(out: &mut S, text: &[u8]) -> Result<(), RunFault> {
    match Printer::new(out).write_all(text) {
        Ok(()) => Ok(()),
        Err(_) => Err(RunFault::Device),
    }
}

/// Prints the line, or tells that there was no memory to make it.
pub fn print_line<S: Sink>(out: &mut S, line: Result<String, AllocError>) -> Result<(), RunFault> {
    match line {
        Ok(line) => print(out, line.as_bytes()),
        Err(_) => Err(RunFault::NoMemory),
    }
}
