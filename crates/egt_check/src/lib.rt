//! The checker of tables: whether each entry is right beside those of the successors, and so true; and the library of
//! tables that passed.
#![tactic(auto)]

pub mod admitting;
pub mod blank;
pub mod block_judging;
pub mod bytes;
pub mod checking;
pub mod fitting;
pub mod found;
pub mod judging;
pub mod lane_sets;
pub mod laws;
pub mod library;
pub mod lone_judging;
pub mod lone_laws;
pub mod lone_runs;
pub mod move_scores;
pub mod own;
pub mod pair_order;
pub mod pairs;
pub mod part;
pub mod part_laws;
pub mod pawn_laws;
pub mod pawn_scores;
pub mod reach_blocks;
pub mod reach_judging;
pub mod reach_laws;
pub mod reach_scores;
pub mod row_judging;
pub mod rows;
pub mod runs;
pub mod score_rows;
pub mod shelf;
pub mod shelved;
pub mod successors;
pub mod table_judging;
pub mod table_scores;
pub mod told_rows;
pub mod voids;

pub use checking::{check, first_lacking, first_missing};
pub use egt_entries::{Metric, Reject, Rule};
pub use library::Library;
