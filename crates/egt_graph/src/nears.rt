//! One entry a node: how far the nearest mate is.
use std::marker::Model;

/// How far the nearest mate is from a game's nodes by moves of both sides, one entry a node: 0 void, 1 none, `2 + n`
/// where it is n plies away, n at most 32,000.
#[derive(Drop)]
pub struct Nears {
    entries: Vec<u16>,
}

impl Model for Nears {
    ghost use Rattle.std.specs.Prelude.{List, ℕ};

    ghost Value = { List ℕ };

    ghost view = { λ n. n.entries.items };
}

impl Nears {
    ghost use Rattle.std.specs.Prelude.{◌≡◌, ◌<◌, ◌≤◌, ◌+◌, ◌⊎◌, ℕ, length, slice_index};

    /// Judges nothing.
    pub fn from_entries(entries: Vec<u16>) -> Self
        ensures { result ≡ entries.items }
    {
        Nears { entries }
    }

    pub fn entries(&self) -> &[u16]
        ensures { result.now ≡ self.now }
    {
        &self.entries
    }

    /// Gives the nodes from this one on these entries.
    pub fn put(&mut self, first: u32, entries: &[u16])
        requires { first + length entries.now ≤ length self.old }
        ensures length { length self.new ≡ length self.old }
        ensures here { (k : ℕ) → k < length entries.now → slice_index self.new (first + k) ≡ slice_index entries.now k }
        ensures others { (i : ℕ) → (i < first) ⊎ (first + length entries.now ≤ i) →
            slice_index self.new i ≡ slice_index self.old i }
    {
        let first = first as usize;
        self.entries[first..first + entries.len()].copy_from_slice(entries);
    }
}
