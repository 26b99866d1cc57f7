//! Libraries of tables.
ghost use Rattle.std.specs.Prelude.{◌≡◌, ℕ, None, Some, IfOk, IfSome, option_map};

use crate::part::Part;
use crate::shelved::Shelved;
use egt_class::Class;
use egt_table::{NoMemory, Table};
use std::alloc::Global;
use std::marker::Model;

/// At most one table of each class. Each passed `check` beside the others, so that its entries are true, and its
/// children are there.
#[derive(Drop)]
pub struct Library {
    pub(crate) places: Vec<Option<Shelved>>,
}

impl Model for Library {
    ghost use Rattle.std.specs.Prelude.{List, Option};
    ghost use Rattle.egt_table.specs.Table.{TableValue};
    ghost use Rattle.egt_entries.specs.Library.{IsLibrary};

    ghost Value = { List (Option TableValue) };

    ghost view = { λ l. l.places.items };

    ghost invariant = { λ l. IsLibrary l.places.items };
}

impl Library {
    ghost use Rattle.egt_entries.specs.Tables.{table_at};
    ghost use Rattle.egt_entries.specs.Library.{IsShelved};
    ghost use Rattle.egt_check.specs.Prelude.{HasBytes, HasColumn, column_of, table_in};

    /// A library without tables; places for all 36 are made here, and `admit` makes none.
    ///
    /// # Errors
    ///
    /// `NoMemory` where there is no memory for the places.
    pub fn new(alloc: Global) -> Result<Library, NoMemory>
        ensures empty { IfOk result (λ l. (c : ℕ) → table_at l c ≡ None) }
    {
        let mut places = Vec::with_capacity(alloc, 36)?;
        for _ in 0..36usize {
            places.push(None)?;
        }
        Ok(Library { places })
    }

    /// The table of the class, if it is there. Its entries are true, and its children are there.
    pub fn get(&self, class: Class) -> Option<&Table>
        ensures is { option_map (λ t. t.now) result ≡ table_at self.now class }
        ensures shelved { IfSome result (λ t. IsShelved (table_at self.now) class t.now) }
    {
        Some(self.shelved(class)?.table())
    }

    /// The table of the class, with what is known of its bytes.
    fn shelved(&self, class: Class) -> Option<&Shelved>
        ensures is { option_map (λ t. t.now) result ≡ table_at self.now class }
        ensures shelved { IfSome result (λ t. IsShelved (table_at self.now) class t.now) }
    {
        self.places[usize::from(class.number())].as_ref()
    }

    /// The table of the class, if it is there, has the part's columns, and its bytes tell their entries.
    pub(crate) fn telling(&self, class: Class, part: Part) -> Option<&Table>
        ensures is { IfSome result (λ t. table_at self.now class ≡ Some t.now) }
        ensures shelved { IfSome result (λ t. IsShelved (table_at self.now) class t.now) }
        ensures there { IfSome result (λ t. HasColumn (column_of part) t.now) }
        ensures bytes { IfSome result (λ t. HasBytes (table_in part t.now)) }
    {
        let shelved = self.shelved(class)?;
        if shelved.tells(part) {
            Some(shelved.table())
        } else {
            None
        }
    }
}
