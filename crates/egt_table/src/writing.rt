//! Tables written to files.
ghost use Rattle.std.specs.Prelude.{◌≡◌, ◌≤◌, length, OnOk, OnErr};
ghost use Rattle.egt_table.specs.Prelude.{Appends, bytes_of, entries_bytes, version_of, CountsFailure, AppendsFront};

use crate::device::Device;
use crate::header::{WITH_REACH, WITHOUT_REACH, header};
use crate::stream::Sink;
use crate::table::Table;
use crate::transfer::{PIECE, PIECE_BYTES, push_all};
use byteorder::{ByteOrder, LittleEndian};

/// Pushes the bytes of at most 2,048 entries in one piece.
fn push_piece<S: Sink>(
    sink: &mut S,
    entries: &[u16],
    buffer: &mut [u8; PIECE_BYTES],
) -> Result<(), Device>
    requires { length entries.now ≤ 2048 }
    ensures bytes { OnOk result (Appends (S.written sink.old) (S.written sink.new) (entries_bytes entries.now)) }
    ensures front { OnErr result (AppendsFront (S.written sink.old) (S.written sink.new) (entries_bytes entries.now)) }
    ensures failures { CountsFailure result (S.failures sink.old) (S.failures sink.new) }
{
    let bytes = &mut buffer[..2 * entries.len()];
    LittleEndian::write_u16_into(entries, bytes);
    push_all(sink, bytes)
}

/// Pushes the bytes of a column.
fn push_entries<S: Sink>(sink: &mut S, entries: &[u16]) -> Result<(), Device>
    ensures bytes { OnOk result (Appends (S.written sink.old) (S.written sink.new) (entries_bytes entries.now)) }
    ensures front { OnErr result (AppendsFront (S.written sink.old) (S.written sink.new) (entries_bytes entries.now)) }
    ensures failures { CountsFailure result (S.failures sink.old) (S.failures sink.new) }
{
    let mut buffer = [0; PIECE_BYTES];
    let mut rest = entries;
    while !rest.is_empty() {
        let (piece, behind) = rest.split_at(rest.len().min(PIECE));
        push_piece(sink, piece, &mut buffer)?;
        rest = behind;
    }
    Ok(())
}

impl Table {
    /// The version of the table's file.
    fn version(&self) -> u16
        ensures { result ≡ version_of self.now.reach }
    {
        if self.has_reach() {
            WITH_REACH
        } else {
            WITHOUT_REACH
        }
    }

    /// Writes the table's file. It takes no memory.
    ///
    /// # Errors
    ///
    /// `Device` where the sink failed. A beginning of the file was written then.
    pub fn write<S: Sink>(&self, sink: &mut S) -> Result<(), Device>
        ensures bytes { OnOk result (Appends (S.written sink.old) (S.written sink.new) (bytes_of self.now)) }
        ensures front { OnErr result (AppendsFront (S.written sink.old) (S.written sink.new) (bytes_of self.now)) }
        ensures failures { CountsFailure result (S.failures sink.old) (S.failures sink.new) }
    {
        push_all(sink, &header(self.version(), self.class()))?;
        for column in self.columns() {
            push_entries(sink, self.entries(*column))?;
        }
        Ok(())
    }
}
