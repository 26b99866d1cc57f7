//! The rules that entries are judged by.

/// A rule that each entry of a true table keeps, in the order in which they are asked.
#[derive(Clone, Copy, Debug, PartialEq, Eq)]
pub enum Rule {
    /// The entry is 0 exactly where the index is void.
    Void,
    /// It is not 2, and at most 64,003; in the column of the nearest mates at most 32,002.
    Range,
    /// The zeroing entry shows a win, a loss or a draw as the mate entry does.
    Kind,
    /// A win is one ply from the least loss among the successors.
    Win,
    /// A loss is checkmate, or all successors are won and it is one ply from the latest of them.
    Loss,
    /// No successor of a draw is lost, and it is stalemate or some successor is drawn.
    Draw,
    /// The nearest mate is 0 plies away at checkmate, and else one more than the least number among the successors.
    Reach,
    /// A dead position is no checkmate, and no successor shows a number (FIDE Laws of Chess 2023, article 5.2.2).
    Dead,
}

impl Rule {
    ghost use Rattle.std.specs.Prelude.{◌≡◌};
    ghost use Rattle.egt_entries.specs.Names.{rule_name};

    /// The rule's name, as it is printed.
    pub fn name(&self) -> &'static str
        ensures { result.now ≡ rule_name self.now }
    {
        match self {
            Rule::Void => "void",
            Rule::Range => "range",
            Rule::Kind => "kind",
            Rule::Win => "win",
            Rule::Loss => "loss",
            Rule::Draw => "draw",
            Rule::Reach => "reach",
            Rule::Dead => "dead",
        }
    }
}
