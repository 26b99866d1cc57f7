//! Classes of positions by their men: what class a position is of, and which classes a capture or a promotion leads to.
#![tactic(auto)]

pub mod class;
pub mod descent;
pub mod laws;
pub mod membership;
pub mod naming;
pub mod sizes;

pub use class::Class;
pub use descent::children;
pub use membership::{of, of_men};
pub use naming::{by_name, name};
pub use sizes::size;
