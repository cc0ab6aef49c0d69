//! The one error of sources, sinks and shelves.

use thiserror::Error;

/// A call on a source, a sink or a shelf failed, and that object counted a fault.
#[derive(Clone, Copy, Debug, PartialEq, Eq, Error)]
#[error("a read, a write or an open failed")]
pub struct Failed;
