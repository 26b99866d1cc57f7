//! A number for each square of the board, worked on all at once: what the checker of tables does to every entry.
#![tactic(auto)]

pub mod alike;
pub mod block;
pub mod load;
pub mod near;
pub mod row;
pub mod score;
pub mod sets;
pub mod shift;
pub mod turn;
pub mod walk;

pub use block::Block;
pub use row::Row;
