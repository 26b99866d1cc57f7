//! Chess positions as FEN texts: the PGN standard of 1994, section 16.1.
#![tactic(auto)]

mod board_text;
mod castling;
mod counter;
mod fault;
mod fen;
mod fields;
mod laws;
mod letter;
mod memory;
mod parts;
mod placement;
mod reading;
mod side;
mod target;
mod walk;
mod writing;

pub use fault::FenFault;
pub use fen::Fen;
pub use laws::{faults_keep_numbers, one_fault, one_meaning, written_is_read};
pub use memory::NoMemory;
pub use reading::read;
pub use writing::write;
