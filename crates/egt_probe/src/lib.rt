//! The prober: what checked tables tell of a position and of each of its moves, its line of best play or its move that
//! holds a draw, and reports of many positions.
#![tactic(auto)]

pub mod answering;
pub mod best_line;
pub mod best_play;
pub mod facts;
pub mod fault;
pub mod first_move;
pub mod holding;
pub mod laws;
pub mod looking;
pub mod open_line;
pub mod outcome;
pub mod ranking;
pub mod reporting;
pub mod root_moves;
pub mod wording;

pub use answering::answer;
pub use best_line::line;
pub use best_play::best_move;
pub use fault::{AnswerFault, HoldFault, LineFault};
pub use holding::hold;
pub use looking::verdict;
pub use outcome::{Missing, Outcome, Verdict};
pub use ranking::RootMove;
pub use root_moves::root;
