//! Why a table was not built.
use crate::missing::Missing;
use egt_class::Class;
use thiserror::Error;

/// What kept a class's table from being built.
#[derive(Clone, Copy, Debug, PartialEq, Eq, Error)]
pub enum BuildFault {
    /// A growth was refused. Nothing is said of the class.
    #[error("out of memory")]
    NoMemory,
    /// Some position of the class has a mate distance above this limit; or, for 32,000, its nearest mate is farther
    /// away.
    #[error("a mate takes more than {0} plies")]
    TooDeep(u16),
    /// The class, the least of the children, has no table in the library.
    #[error("the table of a child is missing")]
    Missing(Class),
    /// The table of this class, the least of such children, lacks the column of the nearest mates.
    #[error("the table of a child lacks the column of the nearest mates")]
    NoReach(Class),
}

impl BuildFault {
    ghost use Rattle.std.specs.Prelude.{◌≡◌};
    ghost use Rattle.egt_sweep.specs.Fault.{number_of, name_of};

    /// The fault's number, from 1 to 4.
    pub fn number(&self) -> u8
        ensures { result ≡ number_of self.now }
    {
        match self {
            BuildFault::NoMemory => 1,
            BuildFault::TooDeep(_) => 2,
            BuildFault::Missing(_) => 3,
            BuildFault::NoReach(_) => 4,
        }
    }

    /// The fault's name, as it is printed.
    pub fn name(&self) -> &'static str
        ensures { result.now ≡ name_of self.now }
    {
        match self {
            BuildFault::NoMemory => "NoMemory",
            BuildFault::TooDeep(_) => "TooDeep",
            BuildFault::Missing(_) => "Missing",
            BuildFault::NoReach(_) => "NoReach",
        }
    }
}

impl From<Missing> for BuildFault {
    ghost use Rattle.std.specs.Prelude.{◌≡◌};
    ghost use Rattle.egt_sweep.specs.declared.build_fault.BuildFault.TheVariants as faults;

    ghost from_gives = { λ missing fault. fault ≡ faults.Missing missing.class };

    fn from(missing: Missing) -> BuildFault {
        BuildFault::Missing(missing.class)
    }
}
