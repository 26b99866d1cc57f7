//! The lines that tell of a class that all is done.
use egt_class::{Class, name};
use egt_index::size;
use std::alloc::{AllocError, Global};

/// The line of a word and the class's name: `ok KQK`.
pub fn name_line(alloc: Global, word: &str, class: Class) -> Result<String, AllocError> {
    let class = name(class);
    format!(in alloc; "{word} {class}\n")
}

/// The line of a word, the class's name and the number of its codes: `built KQK entries 81920`.
pub(crate) fn entries_line(alloc: Global, word: &str, class: Class) -> Result<String, AllocError> {
    let entries = size(class);
    let class = name(class);
    format!(in alloc; "{word} {class} entries {entries}\n")
}
