//! The codes of a class in runs, and which of these need no judgement code by code.
ghost use Rattle.std.specs.Prelude.{◌≡◌, ◌<◌, true, IfSome};
ghost use Rattle.egt_check.specs.Prelude.{AreRuns, IsMarked, Part, TableValue, Tables};

use crate::pairs::MOST_PAIRS;
use egt_class::Class;
use egt_index::size;

/// Runs of as many codes that follow one another: those of the pairs of kings' squares, or all codes in one.
#[derive(Drop)]
pub struct Runs {
    /// How many codes a run has.
    pub len: u32,
    /// How many runs there are.
    pub count: u32,
    /// Of which runs the entries with White to move were found to keep the rules.
    pub white: [bool; MOST_PAIRS],
    /// And those with Black to move.
    pub black: [bool; MOST_PAIRS],
    /// Whether the table's bytes are known to tell its entries.
    pub tells: bool,
}

/// These runs, or all codes of the class in one, of which nothing is known.
pub(crate) fn runs_or_one(known: Option<Runs>, class: Class) -> Runs
    ensures { (part : Part) (tables : Tables) (t : TableValue) → t.class ≡ class →
        IfSome known (AreRuns part tables t) → AreRuns part tables t result }
{
    match known {
        Some(runs) => runs,
        None => Runs {
            len: size(class),
            count: 1,
            white: [false; MOST_PAIRS],
            black: [false; MOST_PAIRS],
            tells: false,
        },
    }
}

/// Whether all entries of the run were found to keep the rules.
pub(crate) fn is_right(runs: &Runs, run: u32) -> bool
    requires { run < 2048 }
    ensures { result ≡ true → IsMarked runs.now run }
{
    runs.white[run as usize] && runs.black[run as usize]
}
