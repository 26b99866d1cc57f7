//! Tables.
ghost use Rattle.std.specs.Prelude.{◌≡◌, ◌≢◌, ◌<◌, ◌≤◌, ◌+◌, ◌⊎◌, ◌↔◌, ℕ, length, slice_index, IsSome, IsOk, IfOk};
ghost use Rattle.std.specs.Prelude.{IfErr, IsTrue};
ghost use Rattle.egt_table.specs.Prelude.{size_of, HasColumn, IsTable, columns_of, entries_of, Reach};

use crate::column::Column;
use egt_class::{Class, size};
use egt_graph::{Nears, Ranks};
use std::marker::Model;

/// The table of a class: in each column one entry a code. What the entries say is not judged here.
///
/// An entry of the columns of mates and of zeroing moves is 0 for a code that spells no position, 1 for a draw, `2 +
/// 2n` for a win in n plies and `3 + 2n` for a loss in n plies.
///
/// The column of the nearest mates may be there or not. An entry of it is 0 for a code that spells no position, 1 for a
/// dead position, from which no moves of both sides end in checkmate (FIDE Laws of Chess 2023, article 5.2.2), and `2 +
/// n` where n plies of both sides lead to a checkmate and no fewer do.
#[derive(Drop)]
pub struct Table {
    class: Class,
    mate: Ranks,
    zeroing: Ranks,
    reach: Option<Nears>,
}

impl Model for Table {
    ghost use Rattle.std.specs.Prelude.{◌≡◌, ◌<◌, length, IfSome};
    ghost use Rattle.egt_class.specs.Size.{size_of};
    ghost use Rattle.egt_table.specs.Table.{TableValue};

    ghost Value = { TableValue };

    ghost view = { λ t. record { class = t.class; mate = t.mate; zeroing = t.zeroing; reach = t.reach } };

    ghost invariant = { λ t. (t.class < 36) × (length t.mate ≡ size_of t.class) × (length t.zeroing ≡ size_of t.class)
        × IfSome t.reach (λ entries. length entries ≡ size_of t.class) };
}

impl Table {
    /// The table with these two columns, which are moved into it. Both come back exactly where one of them has not as
    /// many entries as the class has codes.
    pub fn from_ranks(class: Class, mate: Ranks, zeroing: Ranks) -> Result<Table, (Ranks, Ranks)>
        ensures table { IfOk result (λ t. t ≡ record { class = class; mate = mate; zeroing = zeroing; reach = None }) }
        ensures back { IfErr result (λ columns. columns ≡ (mate, zeroing)) }
        ensures exact { IsOk result ↔ ((length mate ≡ size_of class) × (length zeroing ≡ size_of class)) }
    {
        let size = size(class) as usize;
        if mate.entries().len() != size || zeroing.entries().len() != size {
            return Err((mate, zeroing));
        }
        let _below = class.number();
        Ok(Table {
            class,
            mate,
            zeroing,
            reach: None,
        })
    }

    /// The table with the column of the nearest mates beside the two that it has. It takes no memory. Both come back
    /// exactly where the table has such a column already, or where this one has not as many entries as the class has
    /// codes.
    pub fn with_reach(self, nears: Nears) -> Result<Table, (Table, Nears)>
        ensures table { IfOk result (λ t. t ≡ record
            { class = self.class; mate = self.mate; zeroing = self.zeroing; reach = Some nears }) }
        ensures back { IfErr result (λ both. both ≡ (self, nears)) }
        ensures exact { IsOk result ↔ ((self.reach ≡ None) × (length nears ≡ size_of self.class)) }
    {
        let size = size(self.class) as usize;
        if self.reach.is_some() || nears.entries().len() != size {
            return Err((self, nears));
        }
        Ok(Table {
            class: self.class,
            mate: self.mate,
            zeroing: self.zeroing,
            reach: Some(nears),
        })
    }

    /// The table without the column of the nearest mates, which is given back.
    pub fn without_reach(self) -> Table
        ensures { result ≡ record { class = self.class; mate = self.mate; zeroing = self.zeroing; reach = None } }
    {
        Table {
            class: self.class,
            mate: self.mate,
            zeroing: self.zeroing,
            reach: None,
        }
    }

    pub fn class(&self) -> Class
        ensures class { result ≡ self.now.class }
        ensures table { IsTable self.now }
    {
        self.class
    }

    /// Whether the column of the nearest mates is there.
    pub fn has_reach(&self) -> bool
        ensures { IsTrue result ↔ IsSome self.now.reach }
    {
        self.reach.is_some()
    }

    /// The columns that are there, in the order of files.
    pub fn columns(&self) -> &'static [Column]
        ensures { result.now ≡ columns_of self.now }
    {
        if self.has_reach() {
            &Column::ALL
        } else {
            &Column::ALL[..2]
        }
    }

    /// The entries of a column that is there, by code.
    pub fn entries(&self, column: Column) -> &[u16]
        requires there { HasColumn column self.now }
        ensures entries { result.now ≡ entries_of column self.now }
        ensures size { length result.now ≡ size_of self.now.class }
    {
        match column {
            Column::Mate => self.mate.entries(),
            Column::Zeroing => self.zeroing.entries(),
            Column::Reach => match &self.reach {
                Some(nears) => nears.entries(),
                None => unreachable!(),
            },
        }
    }

    /// The entry of a column that is there, at a code of the class.
    pub fn entry(&self, column: Column, index: u32) -> u16
        requires there { HasColumn column self.now }
        requires index { index < size_of self.now.class }
        ensures { result ≡ slice_index (entries_of column self.now) index }
    {
        self.entries(column)[index as usize]
    }

    /// Gives the codes from this one on these entries in a column that is there.
    pub fn put(&mut self, column: Column, first: u32, entries: &[u16])
        requires there { HasColumn column self.old }
        requires within { first + length entries.now ≤ size_of self.old.class }
        ensures class { self.new.class ≡ self.old.class }
        ensures there { (other : Column) → HasColumn other self.old → HasColumn other self.new }
        ensures columns { (other : Column) → other ≢ column → entries_of other self.new ≡ entries_of other self.old }
        ensures reach { column ≢ Reach → self.new.reach ≡ self.old.reach }
        ensures here { (k : ℕ) → k < length entries.now →
            slice_index (entries_of column self.new) (first + k) ≡ slice_index entries.now k }
        ensures others { (i : ℕ) → (i < first) ⊎ (first + length entries.now ≤ i) →
            slice_index (entries_of column self.new) i ≡ slice_index (entries_of column self.old) i }
    {
        match column {
            Column::Mate => self.mate.put(first, entries),
            Column::Zeroing => self.zeroing.put(first, entries),
            Column::Reach => match &mut self.reach {
                Some(nears) => nears.put(first, entries),
                None => unreachable!(),
            },
        }
    }
}
