//! Why a type is not made.

use std::alloc::{AllocError, AllocFailed};
use thiserror::Error;

/// Why a type has no layout that an object could have.
#[derive(Clone, Copy, Debug, PartialEq, Eq, Error)]
pub enum LayoutFault {
    /// The type of an element or member is incomplete, or a function type (6.2.5p20).
    #[error("incomplete type")]
    Incomplete,
    /// The size would pass 16,777,216 bytes.
    #[error("type too large")]
    TooLarge,
}

/// Why a type was not made.
#[derive(Debug, Drop, Error)]
pub enum BuildFault {
    #[error("{0}")]
    Layout(LayoutFault),
    #[error("{0}")]
    Memory(AllocError),
}

impl From<LayoutFault> for BuildFault {
    ghost use Rattle.std.specs.Prelude.{◌≡◌};
    ghost use Rattle.c_types.specs.declared.fault.BuildFault.{BuildFault};

    ghost from_gives = { λ cause fault. fault ≡ BuildFault.Layout cause };

    fn from(cause: LayoutFault) -> BuildFault {
        BuildFault::Layout(cause)
    }
}

impl From<AllocError> for BuildFault {
    ghost use Rattle.std.specs.Prelude.{◌≡◌};
    ghost use Rattle.c_types.specs.declared.fault.BuildFault.{BuildFault};

    ghost from_gives = { λ cause fault. fault ≡ BuildFault.Memory cause };

    fn from(cause: AllocError) -> BuildFault {
        BuildFault::Memory(cause)
    }
}

impl<T: Drop> From<AllocFailed<T>> for BuildFault {
    ghost use Rattle.std.specs.Prelude.{◌≡◌, alloc_error};
    ghost use Rattle.c_types.specs.declared.fault.BuildFault.{BuildFault};

    ghost from_gives = { λ _ fault. fault ≡ BuildFault.Memory alloc_error };

    fn from(_cause: AllocFailed<T>) -> BuildFault {
        BuildFault::Memory(AllocError)
    }
}
