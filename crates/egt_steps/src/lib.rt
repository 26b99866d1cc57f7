//! Effects of one move: the laws of the crates below that rules and games rest on, and where each kind of move leads,
//! by the men on their squares. The checker stands on it.
#![tactic(auto)]

pub mod class_moves;
pub mod code_laws;
pub mod facts;
pub mod laws;
pub mod pawn_laws;
