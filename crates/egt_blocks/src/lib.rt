//! The greatest scores of all moves of a side in a class with two men beside the kings, the kings standing on two
//! squares: kings' steps, pieces' moves, pawns' advances and leaps, captures, promotions and captures in passing. What
//! codes are worth is any function, told by rows: the checker's is that of a table's entries, the builder's that of the
//! entries found so far.
#![tactic(auto)]

pub mod advance_blocks;
pub mod blocks;
pub mod digits;
pub mod kept_blocks;
pub mod king_blocks;
pub mod lone_quiet;
pub mod lone_rows;
pub mod men;
pub mod own_men;
pub mod passing_blocks;
pub mod quiet_blocks;
pub mod scored;
pub mod taken_blocks;
