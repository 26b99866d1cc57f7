//! Answers of the calls of a run by rounds.

/// Where a run by rounds stands.
#[derive(Clone, Copy, PartialEq, Eq, Debug)]
pub enum Phase {
    Running,
    /// Every node's rank is known.
    Finished,
    /// Some rank is above the limit.
    TooDeep,
}

/// What `Rounds::post` answers.
#[derive(Clone, Copy, PartialEq, Eq, Debug)]
pub enum Post {
    /// The batch was taken in.
    Posted,
    /// The block had been posted in this round. Nothing changed.
    Repeat,
    /// The batch is of another round, or does not list the block's nodes of this round. Nothing changed.
    Stale,
}

/// What `Rounds::close` answers.
#[derive(Clone, Copy, PartialEq, Eq, Debug)]
pub enum Close {
    /// The next round has begun.
    Next,
    /// No node has a rank above the round.
    Finished,
    /// A block of the round was not posted. Nothing changed.
    NotAll,
    /// Some node has a rank above the limit.
    TooDeep,
}
