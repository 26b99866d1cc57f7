//! The legal moves of a FEN as text.
ghost use Rattle.std.specs.Prelude.{◌≡◌, IfOk, Err};
ghost use Rattle.egt_commands.specs.Prelude.{FenFault, Fen, Spells, IsFirstFault, ListsMoves, lines_of};

use crate::fault::MovesFault;
use crate::printer::print;
use crate::run_fault::RunFault;
use egt_moves::{Move, legal_moves};
use egt_table::Sink;
use std::alloc::{AllocError, Global};

/// The texts of these moves, each followed by a line feed.
fn lines(alloc: Global, moves: &[Move]) -> Result<Vec<u8>, AllocError>
    ensures { IfOk result (λ text. text.items ≡ lines_of moves.now) }
{
    let mut text = Vec::new(alloc);
    for chess_move in moves {
        text.extend_from_slice(chess_move.text().as_bytes())?;
        text.push(b'\n')?;
    }
    Ok(text)
}

/// The legal moves of the position that the FEN spells, in order, each followed by a line feed.
///
/// # Errors
///
/// `Fen` with the first fault where the FEN is refused; `NoMemory` where a growth was refused.
pub fn moves_text(alloc: Global, fen: &[u8]) -> Result<Vec<u8>, MovesFault>
    ensures moves { IfOk result (λ text. ListsMoves fen.now text.items) }
    ensures refused { (fault : FenFault) → result ≡ Err (MovesFault.Fen fault) → IsFirstFault fen.now fault }
    ensures memory { result ≡ Err MovesFault.NoMemory → (read : Fen) × Spells fen.now read }
{
    let read = match egt_fen::read(fen) {
        Ok(read) => read,
        Err(fault) => return Err(MovesFault::Fen(fault)),
    };
    let moves = legal_moves(&read.position);
    match lines(alloc, moves.as_slice()) {
        Ok(text) => Ok(text),
        Err(_) => Err(MovesFault::NoMemory),
    }
}

/// `egtb moves FEN`.
pub fn print_moves<O: Sink>(alloc: Global, fen: &str, out: &mut O) -> Result<(), RunFault> {
    print(out, &moves_text(alloc, fen.as_bytes())?)
}
