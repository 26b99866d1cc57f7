//! One entry a node.
use std::marker::Model;

/// The values of a game's nodes, one entry a node: 0 void, 1 draw, `2 + 2n` win in n plies, `3 + 2n` loss in n plies.
#[derive(Drop)]
pub struct Ranks {
    entries: Vec<u16>,
}

impl Model for Ranks {
    ghost use Rattle.std.specs.Prelude.{List, ℕ};

    ghost Value = { List ℕ };

    ghost view = { λ r. r.entries.items };
}

impl Ranks {
    ghost use Rattle.std.specs.Prelude.{◌≡◌, ◌<◌, ◌≤◌, ◌+◌, ◌⊎◌, ℕ, length, slice_index};

    /// Judges nothing.
    pub fn from_entries(entries: Vec<u16>) -> Self
        ensures { result ≡ entries.items }
    {
        Ranks { entries }
    }

    pub fn entries(&self) -> &[u16]
        ensures { result.now ≡ self.now }
    {
        &self.entries
    }

    /// Gives the nodes from this one on these entries.
    pub fn put(&mut self, first: u32, entries: &[u16])
        requires { first + length entries.now ≤ length self.old }
        ensures length { length self.new ≡ length self.old }
        ensures here { (k : ℕ) → k < length entries.now → slice_index self.new (first + k) ≡ slice_index entries.now k }
        ensures others { (i : ℕ) → (i < first) ⊎ (first + length entries.now ≤ i) →
            slice_index self.new i ≡ slice_index self.old i }
    {
        let first = first as usize;
        self.entries[first..first + entries.len()].copy_from_slice(entries);
    }
}
