//! A library takes a table that passes the check beside its own.
ghost use Rattle.std.specs.Prelude.{◌≡◌, ◌↔◌, ℕ, None, IsOk, IfErr};

use crate::checking::checked;
use crate::laws::rules_are_kept_by_true_tables_alone;
use crate::library::Library;
use crate::shelved::Shelved;
use egt_class::laws::children_have_smaller_numbers;
use egt_entries::reject::Reject;
use egt_table::Table;

impl Library {
    ghost use Rattle.egt_entries.specs.Tables.{table_at, beside};
    ghost use Rattle.egt_entries.specs.Library.{IsAccepted, IsTurnedAway};

    /// Takes the table where `check` accepts it and its class has none. A table that is refused comes back, and the
    /// library is as before.
    ///
    /// # Errors
    ///
    /// `AlreadyThere` where the library has a table of the class, else what `check` answers.
    pub fn admit(&mut self, table: Table) -> Result<(), (Table, Reject)>
        ensures exact { IsOk result ↔ ((table_at self.old table.class ≡ None) × IsAccepted (table_at self.old) table) }
        ensures shelved { IsOk result → (c : ℕ) → table_at self.new c ≡ beside (table_at self.old) table c }
        ensures same { IfErr result (λ refused. self.new ≡ self.old) }
        ensures back { IfErr result (λ refused. refused.0 ≡ table) }
        ensures reason { IfErr result (λ refused. IsTurnedAway (table_at self.old) table refused.1) }
    {
        rules_are_kept_by_true_tables_alone();
        children_have_smaller_numbers();
        let place = usize::from(table.class().number());
        if self.places[place].is_some() {
            return Err((table, Reject::AlreadyThere));
        }
        match checked(&table, self) {
            Ok(telling) => {
                self.places[place] = Some(Shelved::new(table, telling));
                Ok(())
            }
            Err(reject) => Err((table, reject)),
        }
    }
}
