//! Why there is no core tree, and why an expression is no constant.
use critical_table::Pos;
use std::alloc::{AllocError, AllocFailed};
use thiserror::Error;

/// Why there is no core tree: the number of the first constraint that fails, with its place, or want of memory.
#[derive(Debug, Drop, Error)]
pub enum TypeFault {
    #[error("constraint {0} at {1:?}")]
    Constraint(u16, Pos),
    #[error("{0}")]
    Memory(AllocError),
}

impl From<AllocError> for TypeFault {
    ghost use Rattle.std.specs.Prelude.{◌≡◌};
    ghost use Rattle.c_core.specs.declared.fault.TypeFault.{TypeFault};

    ghost from_gives = { λ cause fault. fault ≡ TypeFault.Memory cause };

    fn from(cause: AllocError) -> TypeFault {
        TypeFault::Memory(cause)
    }
}

impl<T: Drop> From<AllocFailed<T>> for TypeFault {
    ghost use Rattle.std.specs.Prelude.{◌≡◌, alloc_error};
    ghost use Rattle.c_core.specs.declared.fault.TypeFault.{TypeFault};

    ghost from_gives = { λ _ fault. fault ≡ TypeFault.Memory alloc_error };

    fn from(_cause: AllocFailed<T>) -> TypeFault {
        TypeFault::Memory(AllocError)
    }
}

/// Why an expression has no constant value.
#[derive(Clone, Copy, Debug, PartialEq, Eq, Error)]
pub enum ConstFault {
    /// It is no integer constant expression (6.6p6).
    #[error("no integer constant expression")]
    NotConstant,
    /// It is one, and an operation in an evaluated part of it is undefined (6.6p4).
    #[error("undefined operation in a constant expression")]
    Value,
}
