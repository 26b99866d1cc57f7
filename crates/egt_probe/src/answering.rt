//! Reports of many lines, from a source to a sink.
ghost use Rattle.std.specs.Prelude.{◌≡◌, ℕ, List, [], ◌∷◌, ◌++◌, OnOk, IfOk, IfErr};
ghost use Rattle.egt_probe.specs.Prelude.{Holds, Wrote, Stopped, Advanced, StoppedIn, AnsweredAll, AnsweredSome};
ghost use Rattle.egt_probe.specs.Prelude.{CountsSink, CountsEither, with_front, Report, loaded_in};

use crate::fault::AnswerFault;
use crate::open_line::OpenLine;
use crate::reporting::report;
use egt_check::Library;
use egt_table::transfer::push_all;
use egt_table::{Device, Sink, Source};
use std::alloc::{AllocError, Global};

/// How many bytes are pulled at once.
const PIECE: usize = 4096;

/// The report of the line that is kept, with a line feed behind it.
fn ended_report(alloc: Global, library: &Library, kept: &OpenLine) -> Result<Vec<u8>, AllocError>
    ensures { IfOk result (λ text. (line : List ℕ) → Holds kept.now line →
        (report : List ℕ) × Report (loaded_in library.now) line report × (text.items ≡ report ++ 10 ∷ [])) }
{
    let mut text = report(alloc, library, kept)?;
    text.push(b'\n')?;
    Ok(text)
}

/// Writes the report of the line that is kept, with a line feed behind it.
fn push_report<K: Sink>(
    alloc: Global,
    library: &Library,
    kept: &OpenLine,
    sink: &mut K,
) -> Result<(), AnswerFault>
    ensures reported { OnOk result ((line : List ℕ) → Holds kept.now line →
        Wrote (loaded_in library.now) (line ∷ []) (K.written sink.old) (K.written sink.new)) }
    ensures fault { IfErr result (λ fault. (line : List ℕ) → Holds kept.now line →
        Stopped (loaded_in library.now) fault (line ∷ []) (K.written sink.old) (K.written sink.new)) }
    ensures failures { CountsSink result (K.failures sink.old) (K.failures sink.new) }
{
    let text = ended_report(alloc, library, kept)?;
    push_all(sink, &text)?;
    Ok(())
}

/// Takes a byte of the input: at a line feed the line is answered, else it goes on.
fn take_byte<K: Sink>(
    alloc: Global,
    library: &Library,
    kept: &mut OpenLine,
    byte: u8,
    sink: &mut K,
) -> Result<(), AnswerFault>
    ensures taken { OnOk result ((line : List ℕ) → Holds kept.old line →
        Advanced (loaded_in library.now) line (byte ∷ []) kept.new (K.written sink.old) (K.written sink.new)) }
    ensures fault { IfErr result (λ fault. (line : List ℕ) → Holds kept.old line →
        StoppedIn (loaded_in library.now) fault line (byte ∷ []) (K.written sink.old) (K.written sink.new)) }
    ensures failures { CountsSink result (K.failures sink.old) (K.failures sink.new) }
{
    if byte != b'\n' {
        kept.add(byte);
        return Ok(());
    }
    push_report(alloc, library, kept, sink)?;
    kept.clear();
    Ok(())
}

/// Takes a piece of the input: the lines that end in it are answered, and the next one is kept as far as it goes.
fn take_piece<K: Sink>(
    alloc: Global,
    library: &Library,
    kept: &mut OpenLine,
    piece: &[u8],
    sink: &mut K,
) -> Result<(), AnswerFault>
    ensures taken { OnOk result ((line : List ℕ) → Holds kept.old line →
        Advanced (loaded_in library.now) line piece.now kept.new (K.written sink.old) (K.written sink.new)) }
    ensures fault { IfErr result (λ fault. (line : List ℕ) → Holds kept.old line →
        StoppedIn (loaded_in library.now) fault line piece.now (K.written sink.old) (K.written sink.new)) }
    ensures failures { CountsSink result (K.failures sink.old) (K.failures sink.new) }
{
    for byte in piece {
        take_byte(alloc, library, kept, *byte, sink)?;
    }
    Ok(())
}

/// Answers the last line, where it is not empty.
fn answer_last<K: Sink>(
    alloc: Global,
    library: &Library,
    kept: &OpenLine,
    sink: &mut K,
) -> Result<(), AnswerFault>
    ensures reported { OnOk result ((line : List ℕ) → Holds kept.now line →
        Wrote (loaded_in library.now) (with_front line []) (K.written sink.old) (K.written sink.new)) }
    ensures fault { IfErr result (λ fault. (line : List ℕ) → Holds kept.now line →
        Stopped (loaded_in library.now) fault (with_front line []) (K.written sink.old) (K.written sink.new)) }
    ensures failures { CountsSink result (K.failures sink.old) (K.failures sink.new) }
{
    if kept.is_empty() {
        return Ok(());
    }
    push_report(alloc, library, kept, sink)
}

/// Answers each line of the source by its report, followed by a line feed, in order. A line ends at a line feed, or at
/// the end of the input if it is not empty there. It keeps a line of at most 1,024 bytes and a piece of 4,096, however
/// long the input is.
///
/// # Errors
///
/// `NoMemory` where a growth was refused: whole reports of a beginning of the lines were written then. `Device` where
/// the source or the sink failed, which is counted: a beginning of the reports was written then.
pub fn answer<S: Source, K: Sink>(
    alloc: Global,
    library: &Library,
    source: &mut S,
    sink: &mut K,
) -> Result<(), AnswerFault>
    ensures answered { OnOk result (AnsweredAll (loaded_in library.now) (S.left source.old) (S.left source.new)
        (K.written sink.old) (K.written sink.new)) }
    ensures fault { IfErr result (λ fault. AnsweredSome (loaded_in library.now) fault (S.left source.old)
        (K.written sink.old) (K.written sink.new)) }
    ensures failures { CountsEither result (S.failures source.old) (S.failures source.new) (K.failures sink.old)
        (K.failures sink.new) }
{
    let mut kept = OpenLine::new();
    let mut buffer = [0; PIECE];
    loop {
        let n = source.pull(&mut buffer)?;
        if n == 0 {
            return answer_last(alloc, library, &kept, sink);
        }
        take_piece(alloc, library, &mut kept, &buffer[..n], sink)?;
    }
}
