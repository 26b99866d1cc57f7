//! Plain values of entries.

/// An entry of a draw. Sweeps also take it for a position that is not decided yet.
pub(crate) const DRAW: u16 = 1;

/// The entry of a win in so many plies.
pub(crate) fn win(plies: u16) -> u16 {
    plies.saturating_mul(2).saturating_add(2)
}

/// The entry of a loss in so many plies.
pub(crate) fn loss(plies: u16) -> u16 {
    plies.saturating_mul(2).saturating_add(3)
}

/// Whether the entry is that of a win in less than so many plies.
pub(crate) fn is_win_below(entry: u16, plies: u16) -> bool {
    entry > DRAW && entry % 2 == 0 && entry < win(plies)
}

/// Whether the entry is that of a loss in less than so many plies.
pub(crate) fn is_loss_below(entry: u16, plies: u16) -> bool {
    entry > DRAW && entry % 2 == 1 && entry < loss(plies)
}

/// Whether the entry is that of a win.
pub(crate) fn is_win(entry: u16) -> bool {
    entry > DRAW && entry % 2 == 0
}

/// Whether the entry is that of a loss.
pub(crate) fn is_loss(entry: u16) -> bool {
    entry > DRAW && entry % 2 == 1
}
