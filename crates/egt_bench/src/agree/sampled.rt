//! Samples of all classes with no folder of tables: those of the first six classes are built.
use crate::agree::damaged::{damaged_agrees, kings_damaged_agree};
use crate::agree::games::{mate_game_agrees, zero_game_agrees};
use crate::agree::samples::{Compared, agree};
use egt_check::Library;
use egt_class::Class;
use egt_sweep::build;
use std::alloc::Global;

/// How many classes have at most three men.
const FEW: u8 = 6;

/// The classes whose children have at most three men.
const WITHOUT_PAWNS: u8 = 26;

/// Two men of one kind, two of one side, two of one kind on either side, and others on either side.
const ZEROED: [u8; 10] = [0, 1, 2, 3, 4, 5, 13, 14, 20, 22];

/// A library with the tables of the classes of at most three men.
fn library_of_few(alloc: Global) -> Option<Library> {
    let mut library = Library::new(alloc).ok()?;
    for number in 0..FEW {
        let table = build(alloc, Class::new(number)?, &library, 32_000).ok()?;
        library.admit(table).ok()?;
    }
    Some(library)
}

/// A step between codes, by how many men the class has.
fn step(class: Class, few: u32, many: u32) -> u32 {
    if class.number() < FEW { few } else { many }
}

/// Whether the class's indexes, moves, moves backwards and, where it has at most three men, entries are the plain ones.
/// The steps are odd, so that either side moves, with a target and without.
fn walks_agree(library: &Library, class: Class) -> bool {
    agree(Compared::Indexes, library, class, step(class, 7, 1_999)).is_ok()
        && agree(Compared::Moves, library, class, step(class, 5, 1_499)).is_ok()
        && agree(Compared::Unmoves, library, class, step(class, 17, 14_983)).is_ok()
        && (class.number() >= FEW || agree(Compared::Entries, library, class, 1).is_ok())
}

/// Whether the class's games are the plain ones, as far as their children's tables are there.
fn games_agree(alloc: Global, library: &Library, class: Class) -> bool {
    let walks = step(class, 23, 3_989);
    (class.number() >= WITHOUT_PAWNS || mate_game_agrees(class, library, walks).is_ok())
        && (!ZEROED.contains(&class.number())
            || zero_game_agrees(alloc, class, library, walks).is_ok())
}

/// How many tables of a class of three men are changed.
const DAMAGED: u32 = 3;

/// Whether the checker judges changed tables of the class as the plain rules do, where it has at most three men.
fn judgements_agree(alloc: Global, library: &Library, class: Class) -> bool {
    if class.number() == 0 {
        return kings_damaged_agree(alloc, library).is_ok();
    }
    class.number() >= FEW || damaged_agrees(alloc, class, library, DAMAGED).is_ok()
}

/// Whether the samples of all classes agree; `None` for want of memory.
pub fn samples_agree(alloc: Global) -> Option<bool> {
    let library = library_of_few(alloc)?;
    for number in 0..36 {
        let class = Class::new(number)?;
        if !walks_agree(&library, class)
            || !games_agree(alloc, &library, class)
            || !judgements_agree(alloc, &library, class)
        {
            return Some(false);
        }
    }
    Some(true)
}
