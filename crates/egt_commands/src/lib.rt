//! The commands of `egtb` that neither build nor probe: what they print of positions and of the tables in a folder's
//! files, and what ends a run.
#![tactic(auto)]

pub mod check;
pub mod descent;
pub mod fault;
pub mod line;
pub mod listing;
pub mod loading;
pub mod mate_text;
pub mod moves;
pub mod present;
pub mod printer;
pub mod run_fault;
pub mod saving;
pub mod statistics;
pub mod stats;
pub mod status;
pub mod tally;

pub use fault::MovesFault;
pub use listing::list_text;
pub use mate_text::search_text;
pub use moves::moves_text;
pub use run_fault::RunFault;
pub use statistics::Statistics;
pub use stats::stats_text;
pub use status::Status;
