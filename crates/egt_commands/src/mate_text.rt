//! The search for mate from a FEN, as text.
ghost use Rattle.std.specs.Prelude.{◌≡◌, ◌<◌, ◌≤◌, IfOk, Err};
ghost use Rattle.egt_commands.specs.Prelude.{FenFault, Fen, Spells, IsFirstFault, TellsMate, mate_line, no_mate_line};
ghost use Rattle.egt_commands.specs.Prelude.{side_name};

use crate::fault::MovesFault;
use crate::printer::print;
use crate::run_fault::RunFault;
use egt_board::Side;
use egt_moves::{Search, search};
use egt_table::Sink;
use std::alloc::{AllocError, Global};

/// The name of a side.
fn name(side: Side) -> &'static [u8]
    ensures { result.now ≡ side_name side }
{
    match side {
        Side::White => b"white",
        Side::Black => b"black",
    }
}

/// The line of a mate in so many plies.
fn mate(alloc: Global, winner: Side, plies: u8) -> Result<Vec<u8>, AllocError>
    requires { plies < 10 }
    ensures { IfOk result (λ text. text.items ≡ mate_line winner plies) }
{
    let mut text = Vec::new(alloc);
    text.extend_from_slice(name(winner))?;
    text.extend_from_slice(b" mates in ")?;
    text.push(b'0' + plies)?;
    text.extend_from_slice(b" plies\n")?;
    Ok(text)
}

/// The line of a search of so many plies that found no mate.
fn no_mate(alloc: Global, plies: u8) -> Result<Vec<u8>, AllocError>
    requires { plies < 10 }
    ensures { IfOk result (λ text. text.items ≡ no_mate_line plies) }
{
    let mut text = Vec::new(alloc);
    text.extend_from_slice(b"no mate within ")?;
    text.push(b'0' + plies)?;
    text.extend_from_slice(b" plies\n")?;
    Ok(text)
}

/// What a search of so many plies, from 1 to 6, tells of the position that the FEN spells: `white mates in 3
/// plies`, `black mates in 0 plies` or `no mate within 6 plies`, followed by a line feed.
///
/// # Errors
///
/// `Fen` with the first fault where the FEN is refused; `NoMemory` where a growth was refused.
pub fn search_text(alloc: Global, plies: u8, fen: &[u8]) -> Result<Vec<u8>, MovesFault>
    requires some { 1 ≤ plies }
    requires few { plies ≤ 6 }
    ensures mate { IfOk result (λ text. TellsMate plies fen.now text.items) }
    ensures refused { (fault : FenFault) → result ≡ Err (MovesFault.Fen fault) → IsFirstFault fen.now fault }
    ensures memory { result ≡ Err MovesFault.NoMemory → (read : Fen) × Spells fen.now read }
{
    let read = match egt_fen::read(fen) {
        Ok(read) => read,
        Err(fault) => return Err(MovesFault::Fen(fault)),
    };
    let line = match search(&read.position, plies) {
        Search::Mate {
            winner,
            plies: within,
        } => mate(alloc, winner, within),
        Search::NotWithin => no_mate(alloc, plies),
    };
    match line {
        Ok(text) => Ok(text),
        Err(_) => Err(MovesFault::NoMemory),
    }
}

/// `egtb search N FEN`.
pub fn print_mate<O: Sink>(alloc: Global, plies: u8, fen: &str, out: &mut O) -> Result<(), RunFault>
    requires some { 1 ≤ plies }
    requires few { plies ≤ 6 }
{
    print(out, &search_text(alloc, plies, fen.as_bytes())?)
}
