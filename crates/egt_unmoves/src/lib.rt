//! Moves backwards: the positions from which a legal move that neither captures nor promotes leads to a position.
#![tactic(auto)]

pub mod laws;
pub mod listing;
pub mod sources;
pub mod taking_back;
pub mod targets;
pub mod unmove;

pub use listing::unmoves;
pub use unmove::Unmove;
