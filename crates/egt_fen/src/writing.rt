//! A FEN text written (PGN standard of 1994, section 16.1).
ghost use Rattle.std.specs.Prelude.{◌≡◌, ◌∷◌, [], ◌++◌, OnOk, IfOk};
ghost use Rattle.egt_fen.specs.Prelude.{canonical, side_text, target_text, Spells};

use crate::board_text::push_placement;
use crate::fen::Fen;
use crate::memory::NoMemory;
use egt_board::{Side, Square};
use itoa::Buffer;
use std::alloc::{AllocError, Global};

/// No FEN of four men is longer.
const ROOM: usize = 64;

/// The one text of a position with its clocks: six fields with one space between, the longest runs of empty
/// squares, `-` for castling and where there is no target, and clocks without leading zeros. `read` gives back
/// what it spells.
///
/// # Errors
///
/// `NoMemory` where there is no memory for the text, and nowhere else.
pub fn write(alloc: Global, fen: &Fen) -> Result<Vec<u8>, NoMemory>
    ensures canonical { IfOk result (λ text. text.items ≡ canonical fen.now) }
    ensures spells { IfOk result (λ text. Spells text.items fen.now) }
{
    Ok(text_of(alloc, fen)?)
}

fn text_of(alloc: Global, fen: &Fen) -> Result<Vec<u8>, AllocError>
    ensures canonical { IfOk result (λ text. text.items ≡ canonical fen.now) }
    ensures spells { IfOk result (λ text. Spells text.items fen.now) }
{
    let mut text = Vec::with_capacity(alloc, ROOM)?;
    push_placement(&mut text, fen.position.board())?;
    text.push(b' ')?;
    text.push(side_letter(fen.position.side()))?;
    text.extend_from_slice(b" - ")?;
    push_target(&mut text, fen.position.target())?;
    let mut number = Buffer::new();
    text.push(b' ')?;
    text.extend_from_slice(number.format(fen.halfmove).as_bytes())?;
    text.push(b' ')?;
    text.extend_from_slice(number.format(fen.fullmove).as_bytes())?;
    Ok(text)
}

fn side_letter(side: Side) -> u8
    ensures { side_text side ≡ result ∷ [] }
{
    match side {
        Side::White => b'w',
        Side::Black => b'b',
    }
}

/// Appends the target by its file and rank, or `-`.
fn push_target(text: &mut Vec<u8>, target: Option<Square>) -> Result<(), AllocError>
    ensures { OnOk result (text.new.items ≡ text.old.items ++ target_text target) }
{
    let Some(square) = target else {
        text.push(b'-')?;
        return Ok(());
    };
    text.push(b'a' + square.file())?;
    text.push(b'1' + square.rank())?;
    Ok(())
}
