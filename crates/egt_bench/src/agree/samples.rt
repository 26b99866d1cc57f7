//! Samples of a class's codes: every so many of them.
use crate::agree::codes::{Spelled, images_agree, spelling};
use crate::agree::judged::entries_agree;
use crate::agree::moves::moves_agree;
use crate::agree::unmoves::unmoves_agree;
use egt_board::Position;
use egt_check::Library;
use egt_class::Class;
use egt_index::size;

/// What is held against its plain form.
#[derive(Clone, Copy)]
pub enum Compared {
    /// The index, of a position and its images.
    Indexes,
    Moves,
    Unmoves,
    /// The entries of the class's table in the library.
    Entries,
}

/// Whether it agrees with its plain form at the position, as it is and with colours exchanged.
fn agrees_at(compared: Compared, position: &Position) -> bool {
    let exchanged = position.flip_colours();
    match compared {
        Compared::Moves => moves_agree(position) && moves_agree(&exchanged),
        _ => unmoves_agree(position) && unmoves_agree(&exchanged),
    }
}

/// Whether it agrees with its plain form at the code.
fn agrees(compared: Compared, library: &Library, class: Class, code: u32) -> bool {
    match compared {
        Compared::Entries => return entries_agree(library, class, code),
        Compared::Indexes => return images_agree(class, code),
        Compared::Moves | Compared::Unmoves => {}
    }
    match spelling(class, code) {
        Spelled::Position(position) => agrees_at(compared, &position),
        Spelled::Nothing => true,
        Spelled::Otherwise => false,
    }
}

/// At how many codes it was held against its plain form, one a step; the first at which it differs.
pub fn agree(compared: Compared, library: &Library, class: Class, step: u32) -> Result<u32, u32> {
    let mut codes = 0u32;
    for code in 0..size(class) {
        if code.checked_rem(step) == Some(0) {
            if !agrees(compared, library, class, code) {
                return Err(code);
            }
            codes = codes.wrapping_add(1);
        }
    }
    Ok(codes)
}
