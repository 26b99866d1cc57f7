//! The program `egtb` as a function from its words and texts to its output.
#![tactic(auto)]

mod build;
mod migrate;
mod probe;
mod program;
mod tool_fault;

pub use egt_commands::{MovesFault, list_text, moves_text, search_text};
pub use program::run;
pub use tool_fault::ToolFault;
