//! The rules that entries of tables are judged by, what entries show, and why a table is refused; apart, so that these
//! proofs run beside those of egt_steps and egt_blocks.
#![tactic(auto)]

pub mod by_metric;
pub mod metric;
pub mod outcome;
pub mod reject;
pub mod rule;

pub use metric::Metric;
pub use reject::Reject;
pub use rule::Rule;
