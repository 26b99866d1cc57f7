//! Plain values of entries of tables.
use crate::agree::steps::Step;
use egt_check::Library;
use egt_class::Class;
use egt_plain::shelf::entry_of;
use egt_table::Column;

/// What an entry says of the side to move: it wins or loses in so many plies, or draws.
#[derive(Clone, Copy, Debug, Default, PartialEq, Eq)]
pub enum Value {
    Win(u16),
    Loss(u16),
    #[default]
    Draw,
}

/// What the entry says, if it says something.
pub fn said_by(entry: u16) -> Option<Value> {
    match entry {
        0 | 2 => None,
        1 => Some(Value::Draw),
        _ => {
            let plies = (entry / 2).saturating_sub(1);
            Some(if entry % 2 == 0 {
                Value::Win(plies)
            } else {
                Value::Loss(plies)
            })
        }
    }
}

/// The entry of an index in the table of a class, where the column is there.
pub fn entry_at(library: &Library, column: Column, class: Class, index: u32) -> Option<u16> {
    entry_of(library.get(class)?, column, index)
}

/// What the mate entry says of where a move leads.
pub fn mate_value(library: &Library, step: &Step) -> Option<Value> {
    said_by(entry_at(library, Column::Mate, step.class, step.index)?)
}
