//! Nodes by the round in which something falls due for them.
ghost use Rattle.std.specs.Prelude.{◌≡◌, ◌==◌, ℕ, ◌<◌, ◌≤◌, ◌++◌, ◌∷◌, [], length, map, slice_index_or, OnOk, IsFalse};
ghost use Rattle.std.specs.Prelude.{if◌then◌else◌};

use std::alloc::{AllocError, Global};
use std::marker::Model;

#[derive(Drop)]
pub(crate) struct Schedule {
    rounds: Vec<Vec<u32>>,
}

impl Model for Schedule {
    ghost use Rattle.std.specs.Prelude.{List, ℕ, map};

    ghost Value = { List (List ℕ) };

    ghost view = { λ s. map (λ nodes. nodes.items) s.rounds.items };
}

impl Schedule {
    pub(crate) fn new(alloc: Global) -> Self
        ensures { result ≡ [] }
    {
        Schedule {
            rounds: Vec::new(alloc),
        }
    }

    /// The node falls due in the round once more.
    pub(crate) fn add(&mut self, alloc: Global, round: u16, node: u32) -> Result<(), AllocError>
        ensures { OnOk result
            ((r : ℕ) → slice_index_or self.new r []
            ≡ (if r == round then slice_index_or self.old r [] ++ node ∷ [] else slice_index_or self.old r [])) }
    {
        let round = usize::from(round);
        grow(alloc, &mut self.rounds, round + 1)?;
        self.rounds[round].push(node)?;
        Ok(())
    }

    /// The nodes that fall due in the round, as often as they were added.
    pub(crate) fn due(&self, round: u16) -> &[u32]
        ensures { result.now ≡ slice_index_or self.now round [] }
    {
        let round = usize::from(round);
        if round < self.rounds.len() {
            &self.rounds[round]
        } else {
            &[]
        }
    }

    /// May some node fall due in a later round than this? Where not, none does.
    pub(crate) fn goes_past(&self, round: u16) -> bool
        ensures { IsFalse result → (r : ℕ) → round < r → slice_index_or self.now r [] ≡ [] }
    {
        self.rounds.len() > usize::from(round) + 1
    }
}

/// At least `len` rounds, of which the new ones have no node.
fn grow(alloc: Global, rounds: &mut Vec<Vec<u32>>, len: usize) -> Result<(), AllocError>
    ensures long { OnOk result (len ≤ length rounds.new.items) }
    ensures same { OnOk result
        ((r : ℕ) → slice_index_or (map (λ nodes. nodes.items) rounds.new.items) r []
        ≡ slice_index_or (map (λ nodes. nodes.items) rounds.old.items) r []) }
{
    'longer: while rounds.len() < len {
        rounds.push(Vec::new(alloc))?;
    }
    Ok(())
}
