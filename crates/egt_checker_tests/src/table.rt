//! Files of tables, and streams. The table of two kings is made by the rule of kings alone.
mod reading;
mod streams;
mod writing;

use egt_plain::kings::{SIZE, entry};
use egt_plain::shelf::entry_of;
use egt_table::{Column, Table};

/// Whether the column has the entries of two kings, from a code on.
fn has_kings(table: &Table, column: Column, first: u32) -> bool {
    for code in first..SIZE {
        if entry_of(table, column, code) != Some(entry(code)) {
            return false;
        }
    }
    true
}
