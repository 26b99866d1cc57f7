//! The report of a line.
ghost use Rattle.std.specs.Prelude.{◌≤◌, length, IfOk, List, ℕ};
ghost use Rattle.egt_probe.specs.Prelude.{PositionReport, Report, most, loaded_in, Holds};

use crate::best_line::best_line;
use crate::holding::{drawing_move, holding_move};
use crate::looking::verdict;
use crate::open_line::OpenLine;
use crate::outcome::Outcome;
use crate::wording::{dead_text, decided_text, drawn_text, long_text, missing_text, refused_text};
use egt_board::Position;
use egt_check::Library;
use egt_fen::read;
use std::alloc::{AllocError, Global};

/// What is reported of a position.
fn position_report(
    alloc: Global,
    library: &Library,
    position: &Position,
) -> Result<Vec<u8>, AllocError>
    ensures { IfOk result (λ text. PositionReport (loaded_in library.now) position.now text.items) }
{
    let verdict = match verdict(library, position) {
        Ok(verdict) => verdict,
        Err(missing) => return missing_text(alloc, missing.class),
    };
    match verdict.value {
        Outcome::Draw => drawn_text(alloc, verdict.class, drawing_move(library, position)),
        Outcome::Dead => dead_text(alloc, verdict.class, &holding_move(library, position)),
        Outcome::Decided {
            winner,
            plies,
            zeroing,
        } => {
            let moves = best_line(alloc, library, position, winner, plies)?;
            decided_text(alloc, verdict.class, winner, plies, zeroing, &moves)
        }
    }
}

/// What is reported of a line of at most 1,024 bytes.
fn line_report(alloc: Global, library: &Library, line: &[u8]) -> Result<Vec<u8>, AllocError>
    requires { length line.now ≤ most }
    ensures { IfOk result (λ text. Report (loaded_in library.now) line.now text.items) }
{
    match read(line) {
        Ok(fen) => position_report(alloc, library, &fen.position),
        Err(fault) => refused_text(alloc, fault),
    }
}

/// What is reported of the line that is kept.
pub(crate) fn report(
    alloc: Global,
    library: &Library,
    kept: &OpenLine,
) -> Result<Vec<u8>, AllocError>
    ensures { IfOk result (λ text. (line : List ℕ) → Holds kept.now line →
        Report (loaded_in library.now) line text.items) }
{
    if kept.is_long {
        long_text(alloc)
    } else {
        line_report(alloc, library, kept.bytes.as_slice())
    }
}
