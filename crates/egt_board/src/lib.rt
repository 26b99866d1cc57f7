//! Squares, men and positions of chess with at most four men, and which squares the men attack.
//!
//! A [`Position`] is always one that the rules of play admit: see [`Position::new`].
#![tactic(auto)]

pub mod attack;
pub mod attack_lines;
pub mod board;
pub mod counting;
pub mod fault;
pub mod king;
pub mod laws;
pub mod listed;
mod lookup;
pub mod man;
pub mod mirror;
pub mod mirrored;
pub mod non_kings;
pub mod occupancy;
pub mod pawn;
pub mod position;
pub mod safety;
pub mod settled;
pub mod square;
pub mod square_set;
pub mod step;
pub mod symmetry;
mod tables;
pub mod target;

pub use board::Board;
pub use fault::PosFault;
pub use man::{Kind, Man, Side};
pub use mirror::Mirror;
pub use occupancy::Occupancy;
pub use position::{Position, attacked};
pub use square::Square;
pub use square_set::SquareSet;
pub use step::{Step, Way};
pub use symmetry::Symmetry;
