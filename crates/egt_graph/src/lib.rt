//! Ranks of finite games by retrograde analysis (Thompson 1986): who wins at each node and in how many plies.
//! It knows no chess. The work is cut into rounds and blocks, which any number of workers may share.
#![tactic(auto)]

mod answer;
mod batch;
mod begin;
mod columns;
mod game;
pub mod laws;
mod near_solver;
mod nearing;
mod nears;
mod ranks;
mod rounds;
mod scan;
mod schedule;
mod solver;
mod step;

pub use answer::{Close, Post};
pub use batch::Batch;
pub use game::{Exit, Game};
pub use near_solver::nearest;
pub use nears::Nears;
pub use ranks::Ranks;
pub use rounds::Rounds;
pub use scan::frontier;
pub use solver::{SolveFault, solve};
pub use std::alloc::AllocError as NoMemory;
