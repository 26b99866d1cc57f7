//! The builder of tables. Classes with two men beside the kings are filled block by block with the kernels that check
//! them: a look at the positions whose kings stand on two squares puts what is due to the greatest scores of all moves,
//! and a block is looked at again where one that it reads has changed. Those with a piece are filled by rows, looked at
//! all until nothing is put. Other classes are games, solved by retrograde analysis.
#![tactic(auto)]

mod ascending;
pub mod beginning;
pub mod begun;
mod build_fault;
mod building;
pub mod covering;
mod edges;
pub mod ends;
mod exits;
mod filled;
pub mod filling;
mod forgetting;
pub mod items;
pub mod kept;
mod laws;
mod limit;
pub mod lone_mending;
pub mod lone_rounds;
pub mod looking;
mod mate_game;
pub mod mending;
mod migrate_fault;
mod migrating;
mod missing;
mod nodes;
mod objective;
pub mod put_due;
pub mod ranks;
mod reach_game;
pub mod rounds;
mod sources;
pub mod stamps;
pub mod tables;
mod turns;
mod zero_game;

pub use build_fault::BuildFault;
pub use building::{build, build_within};
pub use mate_game::MateGame;
pub use migrate_fault::MigrateFault;
pub use migrating::migrate;
pub use missing::Missing;
pub use put_due::Looks;
pub use reach_game::ReachGame;
pub use rounds::ROUNDS;
pub use tables::{Reached, filled_reach, filled_values};
pub use zero_game::ZeroGame;
