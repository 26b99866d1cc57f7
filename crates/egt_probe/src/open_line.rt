//! A line as far as it was read.
use arrayvec::ArrayVec;

/// The bytes of a line as far as it was read, or that they are more than 1,024: then they are not kept.
#[derive(Drop)]
pub(crate) struct OpenLine {
    pub(crate) bytes: ArrayVec<u8, 1024>,
    pub(crate) is_long: bool,
}

impl OpenLine {
    ghost use Rattle.std.specs.Prelude.{◌≡◌, ◌↔◌, List, [], ◌∷◌, ◌++◌, ℕ, IsTrue};
    ghost use Rattle.egt_probe.specs.Answer.{Holds};

    /// An empty line.
    pub(crate) fn new() -> OpenLine
        ensures { Holds result [] }
    {
        OpenLine {
            bytes: ArrayVec::new(),
            is_long: false,
        }
    }

    /// The line goes on with the byte.
    pub(crate) fn add(&mut self, byte: u8)
        ensures { (line : List ℕ) → Holds self.old line → Holds self.new (line ++ byte ∷ []) }
    {
        if self.is_long {
            return;
        }
        if self.bytes.is_full() {
            self.is_long = true;
        } else {
            self.bytes.push(byte);
        }
    }

    /// The next line begins.
    pub(crate) fn clear(&mut self)
        ensures { Holds self.new [] }
    {
        self.bytes.clear();
        self.is_long = false;
    }

    /// Whether nothing of the line was read.
    pub(crate) fn is_empty(&self) -> bool
        ensures { (line : List ℕ) → Holds self.now line → IsTrue result ↔ (line ≡ []) }
    {
        !self.is_long && self.bytes.is_empty()
    }
}
