//! The base of the crates of tests. Plain tables of the first six classes: every position by its own code, with no
//! symmetry, solved by sweeps forward, from the rules of play alone (`filling` and `shelf` alone ask for indexes
//! and sizes, and put the entries there). The table of two kings by the rule of kings alone; tables' files and
//! libraries; runs by rounds in whatever order. It has no tests, since a crate with tests is proved twice.
#![tactic(auto)]

mod code;
mod filling;
pub mod kings;
mod mates;
mod moves;
mod outcome;
mod reach;
pub mod runs;
pub mod shelf;
mod solving;
pub mod steps;
mod tables;
mod zeroing;

pub use code::{PlainPosition, THIRD};
pub use filling::{Unlike, plain_code, position_of, table_of, whole_table_of};
pub use tables::PlainTables;
