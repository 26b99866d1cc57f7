//! Whole pieces through streams that take or give them in parts.
ghost use Rattle.std.specs.Prelude.{◌≡◌, ◌<◌, ◌≤◌, ℕ, length, take, slice_index, IfOk, OnOk, OnErr};
ghost use Rattle.egt_table.specs.Prelude.{Consumes, Appends, IsAtEnd, CountsFailure, AppendsFront};

use crate::device::Device;
use crate::stream::{Sink, Source};

/// How many entries go through the buffer at once.
pub(crate) const PIECE: usize = 2048;

/// How many bytes these have.
pub(crate) const PIECE_BYTES: usize = 2 * PIECE;

/// Pulls until the buffer is full or nothing is left, and gives the number of bytes that came.
pub(crate) fn fill<S: Source>(source: &mut S, buffer: &mut [u8]) -> Result<usize, Device>
    ensures bound { IfOk result (λ n. n ≤ length buffer.new) }
    ensures bytes { IfOk result (λ n. Consumes (S.left source.old) (S.left source.new) (take n buffer.new)) }
    ensures end { IfOk result (λ n. n < length buffer.new → IsAtEnd (S.left source.new)) }
    ensures range { (i : ℕ) → slice_index buffer.new i < 256 }
    ensures failures { CountsFailure result (S.failures source.old) (S.failures source.new) }
{
    let mut got = 0;
    while got < buffer.len() {
        let n = source.pull(&mut buffer[got..])?;
        if n == 0 {
            return Ok(got);
        }
        got += n;
    }
    Ok(got)
}

/// Pushes until the whole piece was taken.
pub fn push_all<S: Sink>(sink: &mut S, piece: &[u8]) -> Result<(), Device>
    ensures bytes { OnOk result (Appends (S.written sink.old) (S.written sink.new) piece.now) }
    ensures front { OnErr result (AppendsFront (S.written sink.old) (S.written sink.new) piece.now) }
    ensures failures { CountsFailure result (S.failures sink.old) (S.failures sink.new) }
{
    let mut rest = piece;
    while !rest.is_empty() {
        let n = sink.push(rest)?;
        rest = rest.split_at(n).1;
    }
    Ok(())
}
