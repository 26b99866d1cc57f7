//! Failures of streams.
use thiserror::Error;

/// A source or a sink failed.
#[derive(Clone, Copy, Debug, PartialEq, Eq, Error)]
#[error("the device failed")]
pub struct Device;
