//! Why a table was refused.
use crate::rule::Rule;
use egt_class::Class;
use egt_table::Column;

/// What speaks against a table.
#[derive(Clone, Copy, Debug, PartialEq, Eq)]
pub enum Reject {
    /// The table of this class, the least of the children that have none, is not there.
    Missing(Class),
    /// The table has the column of the nearest mates, and the table of this class, the least of such children, lacks
    /// it.
    NoReach(Class),
    /// In the first column that has a bad entry, the least index of one, and the first rule that it breaks.
    Rejected {
        column: Column,
        index: u32,
        rule: Rule,
    },
    /// The library has a table of the class.
    AlreadyThere,
}

impl Reject {
    ghost use Rattle.std.specs.Prelude.{◌≡◌};
    ghost use Rattle.egt_entries.specs.Names.{number_of, name_of};

    /// The refusal's number: 11, 12, 13 or 17.
    pub fn number(&self) -> u8
        ensures { result ≡ number_of self.now }
    {
        match self {
            Reject::Missing(_) => 11,
            Reject::NoReach(_) => 17,
            Reject::Rejected { .. } => 12,
            Reject::AlreadyThere => 13,
        }
    }

    /// The refusal's name, as it is printed.
    pub fn name(&self) -> &'static str
        ensures { result.now ≡ name_of self.now }
    {
        match self {
            Reject::Missing(_) => "Missing",
            Reject::NoReach(_) => "NoReach",
            Reject::Rejected { .. } => "Rejected",
            Reject::AlreadyThere => "AlreadyThere",
        }
    }
}
