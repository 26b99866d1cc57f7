//! Streams of bytes: what a table's file is read from and written to.
ghost use Rattle.std.specs.Prelude.{◌≡◌, ◌<◌, ◌≤◌, ℕ, List, Option, length, IfOk};
ghost use Rattle.egt_table.specs.Prelude.{ReadConsumes, WriteAppends, CountsFailure};

use crate::device::Device;

/// What bytes are read from.
pub trait Source {
    // The bytes left to read, where they are known.
    ghost left: { Self → Option (List ℕ) };

    // How many calls failed. The count stays at its greatest value.
    ghost failures: { Self → ℕ };

    // What each pull of a byte or more lowers, so that loops over pulls end.
    ghost turns: { Self → ℕ };

    /// Takes bytes off the front of those that are left, into the front of the buffer, and gives their number, which
    /// may be less than the buffer has room for. Where there is room, 0 says that nothing is left.
    ///
    /// # Errors
    ///
    /// `Device` where the call failed. It took nothing then, and is counted.
    fn pull(&mut self, buffer: &mut [u8]) -> Result<usize, Device>
        ensures bound { IfOk result (λ n. n ≤ length buffer.new) }
        ensures bytes { ReadConsumes (left self.old) (left self.new) result buffer.new }
        ensures falls { IfOk result (λ n. 0 < n → turns self.new < turns self.old) }
        ensures failures { CountsFailure result (failures self.old) (failures self.new) };
}

/// What bytes are written to.
pub trait Sink {
    // The bytes written, where they are known.
    ghost written: { Self → Option (List ℕ) };

    // How many calls failed. The count stays at its greatest value.
    ghost failures: { Self → ℕ };

    /// Adds bytes off the front of the piece to those that were written, and gives their number: at least one where the
    /// piece has any, and maybe fewer than it has.
    ///
    /// # Errors
    ///
    /// `Device` where the call failed. It added nothing then, and is counted.
    fn push(&mut self, piece: &[u8]) -> Result<usize, Device>
        ensures bound { IfOk result (λ n. n ≤ length piece.now) }
        ensures some { IfOk result (λ n. 0 < length piece.now → 0 < n) }
        ensures bytes { WriteAppends (written self.old) (written self.new) result piece.now }
        ensures failures { CountsFailure result (failures self.old) (failures self.new) };
}
