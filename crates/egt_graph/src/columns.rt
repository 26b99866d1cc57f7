//! One step of retrograde analysis over plain columns: an entry and a counter a node.
ghost use Rattle.std.specs.Prelude.{◌≡◌, ◌==◌, true, false, ℕ, ◌+◌, ◌-◌, ◌<◌, ◌≤◌, length, slice_index, slice_set, All};
ghost use Rattle.std.specs.Prelude.{MatchBool, IsTrue, IsFalse};
ghost use Rattle.egt_graph.specs.Columns.{decided, Marks, TakesBack, count_of, is_open, is_open_at};

/// The entry of a node that is not decided.
pub(crate) const DRAW: u16 = 1;

/// The nodes win in `plies` plies, where they were not decided.
#[tactic(auto, using(crate::proofs::Steps::Marks_none))]
pub(crate) fn mark_wins(entries: &mut [u16], nodes: &[u32], plies: u16)
    requires short { plies ≤ 32001 }
    requires within { All (λ i. i < length entries.old) nodes.now }
    ensures { Marks entries.old nodes.now plies entries.new }
{
    for node in nodes {
        mark_win(entries, *node as usize, plies);
    }
}

#[inline(always)]
fn mark_win(entries: &mut [u16], i: usize, plies: u16)
    requires short { plies ≤ 32001 }
    requires within { i < length entries.old }
    ensures { entries.new ≡ slice_set entries.old i (decided (slice_index entries.old i) true false plies) }
{
    if entries[i] == DRAW {
        entries[i] = 2 + 2 * plies;
    }
}

/// Each of the nodes waits for one move less. It loses in `plies` plies where it waits for none and was not decided.
pub(crate) fn take_back(entries: &mut [u16], waits: &mut [u8], nodes: &[u32], plies: u16)
    requires short { plies ≤ 32001 }
    requires within { All (λ i. i < length entries.old) nodes.now }
    requires matched { length waits.old ≡ length entries.old }
    requires waited { (i : ℕ) → count_of i nodes.now ≤ slice_index waits.old i }
    ensures { TakesBack entries.old waits.old nodes.now plies entries.new waits.new }
{
    for node in nodes {
        take_back_move(entries, waits, *node as usize, plies);
    }
}

#[inline(always)]
fn take_back_move(entries: &mut [u16], waits: &mut [u8], i: usize, plies: u16)
    requires short { plies ≤ 32001 }
    requires within { i < length entries.old }
    requires within_waits { i < length waits.old }
    requires waited { 0 < slice_index waits.old i }
    ensures waits { waits.new ≡ slice_set waits.old i (slice_index waits.old i - 1) }
    ensures entries { entries.new
        ≡ slice_set entries.old i (decided (slice_index entries.old i) false (slice_index waits.old i - 1 == 0) plies) }
{
    waits[i] -= 1;
    if waits[i] == 0 && entries[i] == DRAW {
        entries[i] = 3 + 2 * plies;
    }
}

/// Each of the nodes has one exit less that may still turn out won.
pub(crate) fn count_down(later: &mut [u8], nodes: &[u32])
    requires within { All (λ i. i < length later.old) nodes.now }
    requires counted { (i : ℕ) → count_of i nodes.now ≤ slice_index later.old i }
    ensures { (i : ℕ) → slice_index later.new i + count_of i nodes.now ≡ slice_index later.old i }
{
    for node in nodes {
        later[*node as usize] -= 1;
    }
}

/// Is some node decided in `plies` plies, or undecided and yet to be decided by its exits?
pub(crate) fn any_open(
    entries: &[u16],
    waits: &[u8],
    later: &[u8],
    lost: &[bool],
    plies: u16,
) -> bool
    requires short { plies ≤ 32001 }
    requires waits { length waits.now ≡ length entries.now }
    requires later { length later.now ≡ length entries.now }
    requires lost { length lost.now ≡ length entries.now }
    ensures { MatchBool result
        ((i : ℕ) × IsTrue (is_open_at plies entries.now waits.now later.now lost.now i))
        ((i : ℕ) → i < length entries.now → IsFalse (is_open_at plies entries.now waits.now later.now lost.now i)) }
{
    for i in 0..entries.len() {
        if is_open(entries[i], waits[i], later[i], lost[i], plies) {
            return true;
        }
    }
    false
}

#[inline(always)]
fn is_open(entry: u16, wait: u8, later: u8, lost: bool, plies: u16) -> bool
    requires { plies ≤ 32001 }
    ensures { result ≡ is_open plies entry wait later lost }
{
    entry == 2 + 2 * plies
        || entry == 3 + 2 * plies
        || (entry == DRAW && (lost || (wait > 0 && wait == later)))
}
