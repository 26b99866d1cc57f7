//! The objective of a game over a class.
ghost use Rattle.std.specs.Prelude.{◌≡◌};

use egt_check::Metric;
use egt_graph::Ranks;

/// The end to which a game's ranks count the plies.
#[derive(Clone, Copy)]
pub(crate) enum Objective<'l> {
    /// Checkmate. Moves that stay in the class go on, and the others leave the game.
    Mate,
    /// The next zeroing move or checkmate. Moves that do not zero go on, and the others leave the game; where one of
    /// them stays in the class, these mate ranks of the class tell what it reaches.
    Zeroing(&'l Ranks),
    /// The nearest checkmate of either side. Moves that stay in the class go on, and the others leave the game: as a
    /// loss in as many plies as the nearest checkmate is away from where they lead, or as a draw where there is none.
    Reach,
}

impl Objective<'_> {
    ghost use Rattle.egt_sweep.specs.Objective.{metric_of};

    /// Which moves go on in the game: those that stay in the class, or those that do not zero.
    pub(crate) fn metric(&self) -> Metric
        ensures { result ≡ metric_of self.now }
    {
        match self {
            Objective::Mate => Metric::Mate,
            Objective::Zeroing(_ranks) => Metric::Zeroing,
            Objective::Reach => Metric::Mate,
        }
    }
}
