//! Tables that a game over a class lacks.
use egt_class::Class;

/// The class, the least of the children, has no table in the library.
#[derive(Clone, Copy, Debug, PartialEq, Eq)]
pub struct Missing {
    pub class: Class,
}
