//! The legal moves of a position, and what they lead to: FIDE Laws of Chess 2023, articles 3 and 5.
#![tactic(auto)]

pub mod chess_move;
pub mod dead;
pub mod exchanging;
pub mod forcing;
pub mod found;
pub mod going;
pub mod laws;
pub mod listing;
pub mod mate_search;
pub mod men_after;
pub mod outcome;
pub mod playing;
pub mod promotion;
pub mod standings;
pub mod targets;
pub mod text;
pub mod zeroing_moves;

pub use chess_move::Move;
pub use found::Search;
pub use listing::legal_moves;
pub use mate_search::search;
pub use men_after::{Men, is_without_en_passant};
pub use outcome::Standing;
pub use playing::{play, play_legal};
pub use standings::standing;
pub use targets::{legal_targets, legal_targets_of};
pub use zeroing_moves::zeroing;
