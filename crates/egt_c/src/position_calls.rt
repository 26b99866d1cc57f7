//! Questions about positions, each given by its FEN or by its men.
ghost use Rattle.std.specs.Prelude.{◌≡◌, IfSome, IfNone, IfOk, IfErr, MatchResult};
ghost use Rattle.egt_c.specs.Prelude.{loaded_in, IsOfText, IsTextFault, OfText, OfMen, TellsVerdict, TellsMove};
ghost use Rattle.egt_c.specs.Prelude.{TellsRoot, TellsMoves, closed, contents};

use crate::fault::EgtbFault;
use crate::handle::EgtbLibrary;
use crate::men::{EgtbPosition, position_of};
use crate::moves::{EgtbMove, EgtbMoves};
use crate::root_moves::EgtbRootMoves;
use crate::verdict::EgtbAnswer;
use egt_board::Position;
use egt_check::Library;
use egt_fen::read;
use egt_moves::legal_moves;
use egt_probe::{best_move, root, verdict};

/// The position that the FEN spells.
fn position_in(fen: &[u8]) -> Result<Position, EgtbFault>
    ensures position { IfOk result (λ p. IsOfText fen.now p) }
    ensures fault { IfErr result (λ fault. IsTextFault fen.now fault) }
{
    match read(fen) {
        Ok(read) => Ok(read.position),
        Err(fault) => Err(EgtbFault::of_fen(fault)),
    }
}

/// Tells the verdict of the position, where there is one.
fn tell_verdict(
    library: &Library,
    position: Result<Position, EgtbFault>,
    answer: &mut EgtbAnswer,
) -> EgtbFault
    ensures { MatchResult position
        (λ p. TellsVerdict (loaded_in library.now) p result answer.old answer.new)
        (λ fault. (result ≡ fault) × (answer.new ≡ answer.old)) }
{
    match position {
        Ok(position) => match verdict(library, &position) {
            Ok(told) => {
                *answer = EgtbAnswer::of(&told);
                EgtbFault::none()
            }
            Err(missing) => EgtbFault::missing(missing.class),
        },
        Err(fault) => fault,
    }
}

/// Tells the move that a side does best to make in the position, where there is one.
fn tell_move(
    library: &Library,
    position: Result<Position, EgtbFault>,
    best: &mut EgtbMove,
) -> EgtbFault
    ensures { MatchResult position
        (λ p. TellsMove (loaded_in library.now) p result best.old best.new)
        (λ fault. (result ≡ fault) × (best.new ≡ best.old)) }
{
    match position {
        Ok(position) => match best_move(library, &position) {
            Ok(told) => {
                *best = EgtbMove::of_option(told);
                EgtbFault::none()
            }
            Err(missing) => EgtbFault::missing(missing.class),
        },
        Err(fault) => fault,
    }
}

/// Tells each move of the position, where there is one.
fn tell_root(
    library: &Library,
    position: Result<Position, EgtbFault>,
    moves: &mut EgtbRootMoves,
) -> EgtbFault
    ensures { MatchResult position
        (λ p. TellsRoot (loaded_in library.now) p result moves.old moves.new)
        (λ fault. (result ≡ fault) × (moves.new ≡ moves.old)) }
{
    match position {
        Ok(position) => match root(library, &position) {
            Ok(told) => {
                *moves = EgtbRootMoves::of(told.as_slice());
                EgtbFault::none()
            }
            Err(missing) => EgtbFault::missing(missing.class),
        },
        Err(fault) => fault,
    }
}

/// The class and the outcome of the position that the FEN spells.
#[unsafe(no_mangle)]
pub extern "C" fn egtb_verdict(
    library: &mut EgtbLibrary,
    fen: &[u8],
    answer: &mut EgtbAnswer,
) -> EgtbFault
    ensures told { IfSome (contents library.old) (λ places.
        OfText (TellsVerdict (loaded_in places)) fen.now result answer.old answer.new) }
    ensures closed { IfNone (contents library.old) ((result ≡ closed) × (answer.new ≡ answer.old)) }
    ensures kept { contents library.new ≡ contents library.old }
{
    match library.owner() {
        Some(owner) => tell_verdict(owner, position_in(fen), answer),
        None => EgtbFault::closed(),
    }
}

/// The class and the outcome of the position that the men make.
#[unsafe(no_mangle)]
pub extern "C" fn egtb_verdict_of(
    library: &mut EgtbLibrary,
    position: &EgtbPosition,
    answer: &mut EgtbAnswer,
) -> EgtbFault
    ensures told { IfSome (contents library.old) (λ places.
        OfMen (TellsVerdict (loaded_in places)) position.now result answer.old answer.new) }
    ensures closed { IfNone (contents library.old) ((result ≡ closed) × (answer.new ≡ answer.old)) }
    ensures kept { contents library.new ≡ contents library.old }
{
    match library.owner() {
        Some(owner) => tell_verdict(owner, position_of(position), answer),
        None => EgtbFault::closed(),
    }
}

/// The first move of best play of the position that the FEN spells, or the move that holds the draw; no move at
/// checkmate and stalemate.
#[unsafe(no_mangle)]
pub extern "C" fn egtb_move(library: &mut EgtbLibrary, fen: &[u8], best: &mut EgtbMove) -> EgtbFault
    ensures told { IfSome (contents library.old) (λ places.
        OfText (TellsMove (loaded_in places)) fen.now result best.old best.new) }
    ensures closed { IfNone (contents library.old) ((result ≡ closed) × (best.new ≡ best.old)) }
    ensures kept { contents library.new ≡ contents library.old }
{
    match library.owner() {
        Some(owner) => tell_move(owner, position_in(fen), best),
        None => EgtbFault::closed(),
    }
}

/// The first move of best play of the position that the men make, or the move that holds the draw; no move at checkmate
/// and stalemate.
#[unsafe(no_mangle)]
pub extern "C" fn egtb_move_of(
    library: &mut EgtbLibrary,
    position: &EgtbPosition,
    best: &mut EgtbMove,
) -> EgtbFault
    ensures told { IfSome (contents library.old) (λ places.
        OfMen (TellsMove (loaded_in places)) position.now result best.old best.new) }
    ensures closed { IfNone (contents library.old) ((result ≡ closed) × (best.new ≡ best.old)) }
    ensures kept { contents library.new ≡ contents library.old }
{
    match library.owner() {
        Some(owner) => tell_move(owner, position_of(position), best),
        None => EgtbFault::closed(),
    }
}

/// The legal moves of the position that the FEN spells, each with the verdict of the position that it leads to, best
/// first.
#[unsafe(no_mangle)]
pub extern "C" fn egtb_root(
    library: &mut EgtbLibrary,
    fen: &[u8],
    moves: &mut EgtbRootMoves,
) -> EgtbFault
    ensures told { IfSome (contents library.old) (λ places.
        OfText (TellsRoot (loaded_in places)) fen.now result moves.old moves.new) }
    ensures closed { IfNone (contents library.old) ((result ≡ closed) × (moves.new ≡ moves.old)) }
    ensures kept { contents library.new ≡ contents library.old }
{
    match library.owner() {
        Some(owner) => tell_root(owner, position_in(fen), moves),
        None => EgtbFault::closed(),
    }
}

/// The legal moves of the position that the men make, each with the verdict of the position that it leads to, best
/// first.
#[unsafe(no_mangle)]
pub extern "C" fn egtb_root_of(
    library: &mut EgtbLibrary,
    position: &EgtbPosition,
    moves: &mut EgtbRootMoves,
) -> EgtbFault
    ensures told { IfSome (contents library.old) (λ places.
        OfMen (TellsRoot (loaded_in places)) position.now result moves.old moves.new) }
    ensures closed { IfNone (contents library.old) ((result ≡ closed) × (moves.new ≡ moves.old)) }
    ensures kept { contents library.new ≡ contents library.old }
{
    match library.owner() {
        Some(owner) => tell_root(owner, position_of(position), moves),
        None => EgtbFault::closed(),
    }
}

/// The legal moves of the position that the FEN spells, in order. It asks no library.
#[unsafe(no_mangle)]
pub extern "C" fn egtb_legal_moves(fen: &[u8], moves: &mut EgtbMoves) -> EgtbFault
    ensures { OfText TellsMoves fen.now result moves.old moves.new }
{
    match position_in(fen) {
        Ok(position) => {
            *moves = EgtbMoves::of(legal_moves(&position).as_slice());
            EgtbFault::none()
        }
        Err(fault) => fault,
    }
}
