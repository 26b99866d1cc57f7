//! Why a call of the prober gives no answer.
ghost use Rattle.std.specs.Prelude.{◌≡◌};
ghost use Rattle.egt_probe.specs.Fault.{line_number, line_name, hold_number, hold_name, answer_number, answer_name};
ghost use Rattle.egt_probe.specs.declared.fault.AnswerFault.TheVariants as faults;

use egt_class::Class;
use egt_table::Device;
use std::alloc::AllocError;
use thiserror::Error;

/// Why there is no line of best play.
#[derive(Clone, Copy, Debug, PartialEq, Eq, Error)]
pub enum LineFault {
    /// There is no memory for the moves.
    #[error("out of memory")]
    NoMemory,
    /// The position's class has no table in the library.
    #[error("the class of the position has no table")]
    Missing(Class),
    /// The position is a draw.
    #[error("the position is a draw")]
    Drawn,
}

/// Why there is no move that holds a draw.
#[derive(Clone, Copy, Debug, PartialEq, Eq, Error)]
pub enum HoldFault {
    /// The position's class has no table in the library.
    #[error("the class of the position has no table")]
    Missing(Class),
    /// A side forces checkmate.
    #[error("a side forces checkmate")]
    Decisive,
}

/// Why not all lines were answered.
#[derive(Clone, Copy, Debug, PartialEq, Eq, Error)]
pub enum AnswerFault {
    /// The source or the sink failed.
    #[error("the device failed")]
    Device,
    /// There is no memory for a report.
    #[error("out of memory")]
    NoMemory,
}

impl LineFault {
    /// The fault's number: 10, 11 or 15.
    pub fn number(&self) -> u8
        ensures { result ≡ line_number self.now }
    {
        match self {
            LineFault::NoMemory => 10,
            LineFault::Missing(_) => 11,
            LineFault::Drawn => 15,
        }
    }

    /// The fault's name, as it is printed.
    pub fn name(&self) -> &'static str
        ensures { result.now ≡ line_name self.now }
    {
        match self {
            LineFault::NoMemory => "NoMemory",
            LineFault::Missing(_) => "Missing",
            LineFault::Drawn => "Drawn",
        }
    }
}

impl HoldFault {
    /// The fault's number: 11 or 16.
    pub fn number(&self) -> u8
        ensures { result ≡ hold_number self.now }
    {
        match self {
            HoldFault::Missing(_) => 11,
            HoldFault::Decisive => 16,
        }
    }

    /// The fault's name, as it is printed.
    pub fn name(&self) -> &'static str
        ensures { result.now ≡ hold_name self.now }
    {
        match self {
            HoldFault::Missing(_) => "Missing",
            HoldFault::Decisive => "Decisive",
        }
    }
}

impl AnswerFault {
    /// The fault's number: 1 among the faults of files, or 10 among those of the prober.
    pub fn number(&self) -> u8
        ensures { result ≡ answer_number self.now }
    {
        match self {
            AnswerFault::Device => 1,
            AnswerFault::NoMemory => 10,
        }
    }

    /// The fault's name, as it is printed.
    pub fn name(&self) -> &'static str
        ensures { result.now ≡ answer_name self.now }
    {
        match self {
            AnswerFault::Device => "Device",
            AnswerFault::NoMemory => "NoMemory",
        }
    }
}

impl From<Device> for AnswerFault {
    ghost from_gives = { λ _ fault. fault ≡ faults.Device };

    fn from(_device: Device) -> AnswerFault {
        Self::Device
    }
}

impl From<AllocError> for AnswerFault {
    ghost from_gives = { λ _ fault. fault ≡ faults.NoMemory };

    fn from(_error: AllocError) -> AnswerFault {
        Self::NoMemory
    }
}
