//! Codes of positions: one number for all images of a position, so that a table has one entry for them.
#![tactic(auto)]

pub mod codes;
pub mod decoding;
pub mod digits;
pub mod equal_men;
pub mod facts;
pub mod home;
pub mod indexing;
pub mod laws;
pub mod least_code;
pub mod lone_codes;
pub mod men;
pub mod numbers;
pub mod places;
pub mod prefix;
pub mod shelf;
pub mod shelf_codes;
pub mod spelling;
pub mod stand;
pub mod targeted;
pub mod turning;
pub mod void_by_kings;

pub use decoding::position;
pub use egt_class::size;
pub use indexing::{index, indexed_by_men};
pub use lone_codes::{lone_man, lone_row};
pub use men::{has_pawns, has_target};
pub use numbers::code_of;
pub use places::{Places, indexes_of};
pub use shelf::last_digits;
pub use shelf_codes::{ShelfMen, shelf_men, shelf_of};
pub use spelling::{position_of, spelled_position};
