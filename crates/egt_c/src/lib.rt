//! The calls that C makes: `egtb.h` beside this folder declares them. Each is a thin form of a call of a crate below,
//! over numbers, slices and structs of them, with its clauses. None aborts, and one that answers a fault leaves the
//! library, and what it was to write, as they were.
#![tactic(auto)]

pub mod class_calls;
pub mod fault;
pub mod handle;
pub mod library_calls;
pub mod loose;
pub mod men;
pub mod moves;
pub mod names;
pub mod position_calls;
pub mod root_moves;
pub mod verdict;
