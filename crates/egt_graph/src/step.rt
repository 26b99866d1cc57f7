//! Steps of the columns at a post and a close.
ghost use Rattle.std.specs.Prelude.{◌≡◌, ℕ, ◌+◌, ◌<◌, ◌≤◌, true, false, List, length, slice_index, slice_index_or};
ghost use Rattle.std.specs.Prelude.{slice_set, replicate, All, IsTrue, IsFalse, MatchBool};
ghost use Rattle.egt_graph.specs.Prelude.{IsAlike, front, Amid, Marks, TakesBack, count_of, done_of, is_open_at};

use crate::batch::Batch;
use crate::columns::{any_open, count_down, mark_wins, take_back};
use crate::game::Game;

/// Takes back the moves into the nodes of a batch, and ticks its block. `_game` is the game that the columns are of:
/// the contract alone reads it.
pub(crate) fn take_in<G: Game>(
    _game: &G,
    entries: &mut [u16],
    waits: &mut [u8],
    posted: &mut [bool],
    batch: &Batch<'_, G>,
    round: u16,
)
    requires short { round ≤ 32000 }
    requires alike { IsAlike (G.graph _game.now) (G.graph batch.now.game) }
    requires whole { batch.now.nodes ≡ front (G.graph _game.now) round batch.now.block }
    requires in_range { batch.now.block < length posted.old }
    requires fresh { IsFalse (slice_index_or posted.old batch.now.block false) }
    requires entries_long { length entries.old ≡ (G.graph _game.now).size }
    requires waits_long { length waits.old ≡ (G.graph _game.now).size }
    requires amid { Amid (G.graph _game.now) round (done_of posted.old) round round entries.old waits.old }
    ensures ticked { posted.new ≡ slice_set posted.old batch.now.block true }
    ensures amid { Amid (G.graph _game.now) round (done_of posted.new) round round entries.new waits.new }
{
    let nodes = batch.nodes();
    for k in 0..nodes.len() {
        let sources = batch.targets(k);
        if entries[nodes[k] as usize] == 2 + 2 * round {
            take_back(entries, waits, sources, round + 1);
        } else {
            mark_wins(entries, sources, round + 1);
        }
    }
    posted[batch.block() as usize] = true;
}

/// The exits of number `round` fall due. Is some node then decided in one ply more, or yet to be decided by its exits?
pub(crate) fn fall_due(
    entries: &mut [u16],
    waits: &mut [u8],
    later: &mut [u8],
    lost: &[bool],
    losses: &[u32],
    wins: &[u32],
    round: u16,
) -> bool
    requires short { round ≤ 32000 }
    requires losses_within { All (λ i. i < length entries.old) losses.now }
    requires wins_within { All (λ i. i < length entries.old) wins.now }
    requires waits_long { length waits.old ≡ length entries.old }
    requires later_long { length later.old ≡ length entries.old }
    requires lost_long { length lost.now ≡ length entries.old }
    requires waited { (i : ℕ) → count_of i wins.now ≤ slice_index waits.old i }
    requires counted { (i : ℕ) → count_of i wins.now ≤ slice_index later.old i }
    ensures columns { (middle : List ℕ)
        × Marks entries.old losses.now (round + 1) middle
        × TakesBack middle waits.old wins.now (round + 1) entries.new waits.new }
    ensures later { (i : ℕ) → slice_index later.new i + count_of i wins.now ≡ slice_index later.old i }
    ensures still_open { MatchBool result
        ((i : ℕ) × IsTrue (is_open_at (round + 1) entries.new waits.new later.new lost.now i))
        ((i : ℕ) → i < length entries.new → IsFalse
        (is_open_at (round + 1) entries.new waits.new later.new lost.now i)) }
{
    mark_wins(entries, losses, round + 1);
    take_back(entries, waits, wins, round + 1);
    count_down(later, wins);
    any_open(entries, waits, later, lost, round + 1)
}

/// Are all flags set?
pub(crate) fn all_set(flags: &[bool]) -> bool
    ensures { MatchBool result (All IsTrue flags.now)
        ((block : ℕ) × (block < length flags.now) × IsFalse (slice_index_or flags.now block true)) }
{
    for k in 0..flags.len() {
        if !flags[k] {
            return false;
        }
    }
    true
}

/// Takes all flags back.
pub(crate) fn clear(flags: &mut [bool])
    ensures { flags.new ≡ replicate (length flags.old) false }
{
    for k in 0..flags.len() {
        flags[k] = false;
    }
}
