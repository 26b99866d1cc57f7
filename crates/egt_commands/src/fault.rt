//! Why there is no text for a FEN.
use egt_fen::FenFault;
use std::alloc::{AllocError, AllocFailed};
use thiserror::Error;

/// What keeps a text from being made of a FEN.
#[derive(Clone, Copy, Debug, PartialEq, Eq, Error)]
pub enum MovesFault {
    /// The FEN was refused, with its first fault.
    #[error(transparent)]
    Fen(FenFault),
    /// A growth of memory was refused.
    #[error("out of memory")]
    NoMemory,
}
