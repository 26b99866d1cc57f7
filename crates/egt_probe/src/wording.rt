//! The texts of reports.
ghost use Rattle.std.specs.Prelude.{◌≡◌, ◌++◌, OnOk, IfOk};
ghost use Rattle.egt_probe.specs.Prelude.{text_of, side_name, moves_text, held_text, decided_text, dead_text};
ghost use Rattle.egt_probe.specs.Prelude.{drawn_text, missing_text, refused_text, long_text};

use egt_board::Side;
use egt_class::{Class, name};
use egt_fen::FenFault;
use egt_moves::Move;
use itoa::Buffer;
use std::alloc::{AllocError, Global};

/// Room for most reports; a longer one takes more.
const ROOM: usize = 512;

/// The name of a side.
fn side_name(side: Side) -> &'static [u8]
    ensures { result.now ≡ side_name side }
{
    match side {
        Side::White => b"white",
        Side::Black => b"black",
    }
}

/// Appends the move's text.
fn push_move(text: &mut Vec<u8>, chess_move: &Move) -> Result<(), AllocError>
    ensures { OnOk result (text.new.items ≡ text.old.items ++ text_of chess_move.now) }
{
    text.extend_from_slice(chess_move.text().as_bytes())
}

/// Appends the moves with one space between, or a dash where there is none.
fn push_moves(text: &mut Vec<u8>, moves: &[Move]) -> Result<(), AllocError>
    ensures { OnOk result (text.new.items ≡ text.old.items ++ moves_text moves.now) }
{
    let [first, rest @ ..] = moves else {
        text.push(b'-')?;
        return Ok(());
    };
    push_move(text, first)?;
    for chess_move in rest {
        text.push(b' ')?;
        push_move(text, chess_move)?;
    }
    Ok(())
}

/// Appends the move, or a dash where there is none.
fn push_held(text: &mut Vec<u8>, held: Option<Move>) -> Result<(), AllocError>
    ensures { OnOk result (text.new.items ≡ text.old.items ++ held_text held) }
{
    match held {
        Some(chess_move) => push_move(text, &chess_move),
        None => {
            text.push(b'-')?;
            Ok(())
        }
    }
}

/// The report of a position of the class that is won or lost.
pub(crate) fn decided_text(
    alloc: Global,
    class: Class,
    winner: Side,
    plies: u16,
    zeroing: u16,
    moves: &[Move],
) -> Result<Vec<u8>, AllocError>
    ensures { IfOk result (λ text. text.items ≡ decided_text class winner plies zeroing moves.now) }
{
    let mut number = Buffer::new();
    let mut text = Vec::with_capacity(alloc, ROOM)?;
    text.extend_from_slice(name(class).as_bytes())?;
    text.push(b' ')?;
    text.extend_from_slice(side_name(winner))?;
    text.extend_from_slice(b" mates in ")?;
    text.extend_from_slice(number.format(plies).as_bytes())?;
    text.extend_from_slice(b" plies zeroing ")?;
    text.extend_from_slice(number.format(zeroing).as_bytes())?;
    text.extend_from_slice(b" line ")?;
    push_moves(&mut text, moves)?;
    Ok(text)
}

/// The report of a drawn position of the class.
pub(crate) fn drawn_text(
    alloc: Global,
    class: Class,
    held: Option<Move>,
) -> Result<Vec<u8>, AllocError>
    ensures { IfOk result (λ text. text.items ≡ drawn_text class held) }
{
    let mut text = Vec::with_capacity(alloc, ROOM)?;
    text.extend_from_slice(name(class).as_bytes())?;
    text.extend_from_slice(b" draw hold ")?;
    push_held(&mut text, held)?;
    Ok(text)
}

/// The report of a dead position of the class that has a legal move.
pub(crate) fn dead_text(alloc: Global, class: Class, held: &Move) -> Result<Vec<u8>, AllocError>
    ensures { IfOk result (λ text. text.items ≡ dead_text class held.now) }
{
    let mut text = Vec::with_capacity(alloc, ROOM)?;
    text.extend_from_slice(name(class).as_bytes())?;
    text.extend_from_slice(b" dead hold ")?;
    push_move(&mut text, held)?;
    Ok(text)
}

/// The report of a position of a class that has no table.
pub(crate) fn missing_text(alloc: Global, class: Class) -> Result<Vec<u8>, AllocError>
    ensures { IfOk result (λ text. text.items ≡ missing_text class) }
{
    let mut text = Vec::with_capacity(alloc, ROOM)?;
    text.extend_from_slice(b"error probe 11 Missing ")?;
    text.extend_from_slice(name(class).as_bytes())?;
    Ok(text)
}

/// The report of a line that is no FEN of a position.
pub(crate) fn refused_text(alloc: Global, fault: FenFault) -> Result<Vec<u8>, AllocError>
    ensures { IfOk result (λ text. text.items ≡ refused_text fault) }
{
    let mut number = Buffer::new();
    let mut text = Vec::with_capacity(alloc, ROOM)?;
    text.extend_from_slice(b"error fen ")?;
    text.extend_from_slice(number.format(fault.number()).as_bytes())?;
    text.push(b' ')?;
    text.extend_from_slice(fault.name().as_bytes())?;
    Ok(text)
}

/// The report of a line of more than 1,024 bytes.
pub(crate) fn long_text(alloc: Global) -> Result<Vec<u8>, AllocError>
    ensures { IfOk result (λ text. text.items ≡ long_text) }
{
    let mut text = Vec::with_capacity(alloc, ROOM)?;
    text.extend_from_slice(b"error probe 14 LongLine")?;
    Ok(text)
}
