//! A FEN text read (PGN standard of 1994, section 16.1).
ghost use Rattle.std.specs.Prelude.{◌≡◌, ◌↔◌, IfOk, IfErr};
ghost use Rattle.egt_fen.specs.Prelude.{IsOk, Fen, Spells, IsFirstFault, parts_of, shown_result};

use crate::castling::castling_of;
use crate::counter::clocks_of;
use crate::fault::FenFault;
use crate::fen::Fen;
use crate::fields::fields_of;
use crate::parts::Parts;
use crate::placement::placement_of;
use crate::side::side_of;
use crate::target::target_of;
use egt_board::Position;

/// The position and the clocks that a text spells. It takes no memory.
///
/// The text is six fields, or four, separated by spaces; spaces before and after them are ignored, and so is one
/// carriage return at the very end. The clocks are 0 and 1 where there are four fields.
///
/// # Errors
///
/// The first of these that holds: `FieldCount` where there are neither six fields nor four; `Placement` where
/// the first is not eight ranks of eight squares, with digits and the letters of men; `Colour` where the second is
/// neither `w` nor `b`; `Castling` where the third is not `-`; `EpField` where the fourth is neither `-` nor a
/// square of the third or the sixth rank; `Counter` where a clock is not one to nine decimal digits; `MenCount`
/// where there are more than four men; `KingCount` where a side has not one king; `PawnRank` where a pawn stands
/// on the first rank or the last; `EpMismatch` where the last move cannot have set the target; `WaitingInCheck`
/// where the king of the side that waits is attacked. A target that no pawn can take is no fault.
pub fn read(text: &[u8]) -> Result<Fen, FenFault>
    ensures spells { IfOk result (λ fen. Spells text.now fen) }
    ensures reads { IsOk result ↔ ((fen : Fen) × Spells text.now fen) }
    ensures fault { IfErr result (λ fault. IsFirstFault text.now fault) }
{
    let parts = parts_of(text)?;
    let position = Position::new(&parts.men, parts.side, parts.target)?;
    Ok(Fen {
        position,
        halfmove: parts.halfmove,
        fullmove: parts.fullmove,
    })
}

/// What the fields of a text say, or the first of them that says nothing.
#[tactic(auto, unfolding(crate::specs::Parts::parts_of))]
fn parts_of(text: &[u8]) -> Result<Parts, FenFault>
    ensures { shown_result result ≡ parts_of text.now }
{
    let Some(fields) = fields_of(text) else {
        return Err(FenFault::FieldCount);
    };
    let Some(men) = placement_of(fields.placement) else {
        return Err(FenFault::Placement);
    };
    let Some(side) = side_of(fields.side) else {
        return Err(FenFault::Colour);
    };
    let Some(()) = castling_of(fields.castling) else {
        return Err(FenFault::Castling);
    };
    let Some(target) = target_of(fields.target) else {
        return Err(FenFault::EpField);
    };
    let Some((halfmove, fullmove)) = clocks_of(fields.clocks) else {
        return Err(FenFault::Counter);
    };
    Ok(Parts {
        men,
        side,
        target,
        halfmove,
        fullmove,
    })
}
