//! The parts of a table that are judged one after the other.
ghost use Rattle.std.specs.Prelude.{◌≡◌};
ghost use Rattle.egt_check.specs.Prelude.{column_of};

use egt_table::Column;

/// What of a table is judged at once.
#[derive(Clone, Copy)]
pub enum Part {
    /// The mate column with the zeroing column.
    Values,
    /// The column of the nearest mates.
    Reach,
}

/// The column that scores come from, of moves that zero too.
pub fn column_of(part: Part) -> Column
    ensures { result ≡ column_of part }
{
    match part {
        Part::Values => Column::Mate,
        Part::Reach => Column::Reach,
    }
}
