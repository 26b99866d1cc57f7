//! Tables of a library, with what is known of their bytes.
ghost use Rattle.std.specs.Prelude.{◌≡◌, true};
ghost use Rattle.egt_check.specs.Prelude.{HasColumn, HasBytes, IsKnownToTell, column_of, table_in};

use crate::part::Part;
use egt_table::Table;
use std::marker::Model;

/// Of which parts a table's bytes are known to tell its entries.
#[derive(Clone, Copy)]
pub(crate) struct Telling {
    pub(crate) values: bool,
    pub(crate) reach: bool,
}

/// A table with what is known so: whoever reads it does not ask all its entries again.
#[derive(Drop)]
pub(crate) struct Shelved {
    table: Table,
    telling: Telling,
}

impl Model for Shelved {
    ghost use Rattle.egt_table.specs.Table.{TableValue};
    ghost use Rattle.egt_check.specs.Parts.{IsKnownToTell};

    ghost Value = { TableValue };

    ghost view = { λ s. s.table };

    ghost invariant = { λ s. IsKnownToTell s.table s.telling.values s.telling.reach };
}

impl Shelved {
    /// The table, of which this is known.
    pub(crate) fn new(table: Table, telling: Telling) -> Shelved
        requires { IsKnownToTell table telling.values telling.reach }
        ensures { result ≡ table }
    {
        Shelved { table, telling }
    }

    /// The table.
    pub(crate) fn table(&self) -> &Table
        ensures { result.now ≡ self.now }
    {
        &self.table
    }

    /// Whether it is known to have the part's columns, and its bytes to tell their entries.
    pub(crate) fn tells(&self, part: Part) -> bool
        ensures there { result ≡ true → HasColumn (column_of part) self.now }
        ensures bytes { result ≡ true → HasBytes (table_in part self.now) }
    {
        match part {
            Part::Values => self.telling.values,
            Part::Reach => self.telling.reach,
        }
    }
}
