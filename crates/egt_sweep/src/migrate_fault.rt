//! Why a table was not migrated.
use egt_class::Class;
use thiserror::Error;

/// What kept the column of the nearest mates from being joined to a table.
#[derive(Clone, Copy, Debug, PartialEq, Eq, Error)]
pub enum MigrateFault {
    /// A growth was refused. Nothing is said of the class.
    #[error("out of memory")]
    NoMemory,
    /// Some position of the class has its nearest mate more than 32,000 plies away.
    #[error("a mate is more than 32000 plies away")]
    TooDeep,
    /// The table of this class, the least of such children, lacks the column.
    #[error("the table of a child lacks the column of the nearest mates")]
    NoReach(Class),
    /// The table has the column.
    #[error("the table has the column of the nearest mates")]
    HasReach,
}

impl MigrateFault {
    ghost use Rattle.std.specs.Prelude.{◌≡◌};
    ghost use Rattle.egt_sweep.specs.Fault.{migrating_number_of, migrating_name_of};

    /// The fault's number: 1, 2, 4 or 5.
    pub fn number(&self) -> u8
        ensures { result ≡ migrating_number_of self.now }
    {
        match self {
            MigrateFault::NoMemory => 1,
            MigrateFault::TooDeep => 2,
            MigrateFault::NoReach(_) => 4,
            MigrateFault::HasReach => 5,
        }
    }

    /// The fault's name.
    pub fn name(&self) -> &'static str
        ensures { result.now ≡ migrating_name_of self.now }
    {
        match self {
            MigrateFault::NoMemory => "NoMemory",
            MigrateFault::TooDeep => "TooDeep",
            MigrateFault::NoReach(_) => "NoReach",
            MigrateFault::HasReach => "HasReach",
        }
    }
}
