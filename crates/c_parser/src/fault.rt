//! Why a unit, or a part of one, has no tree.

use c_lexer::Token;
use critical_table::Pos;
use std::alloc::{AllocError, AllocFailed};
use thiserror::Error;

/// Why a unit's tokens have no tree.
#[derive(Debug, Drop, Error)]
pub enum SyntaxFault {
    /// No unit begins with the tokens up to and with the one at this place, or the unit ends here too soon.
    #[error("no syntax at {0:?}")]
    Syntax(Pos),
    /// Only a unit of a greater height than is taken begins with the tokens up to and with the one at this place.
    #[error("too deep at {0:?}")]
    Deep(Pos),
    /// Memory ran out.
    #[error("{0}")]
    Memory(AllocError),
}

/// Why reading stopped, and the tokens from where it did.
#[derive(Drop)]
pub(crate) enum Fault<'a> {
    Unfit(&'a [Token]),
    TooDeep(&'a [Token]),
    Memory(AllocError),
}

impl From<AllocError> for Fault<'_> {
    ghost use Rattle.std.specs.Prelude.{◌≡◌};
    ghost use Rattle.c_parser.specs.declared.fault.Fault.{Fault};

    ghost from_gives = { λ cause fault. fault ≡ Fault.Memory cause };

    fn from(cause: AllocError) -> Self {
        Fault::Memory(cause)
    }
}

impl<T: Drop> From<AllocFailed<T>> for Fault<'_> {
    ghost use Rattle.std.specs.Prelude.{◌≡◌, alloc_error};
    ghost use Rattle.c_parser.specs.declared.fault.Fault.{Fault};

    ghost from_gives = { λ _ fault. fault ≡ Fault.Memory alloc_error };

    fn from(_cause: AllocFailed<T>) -> Self {
        Fault::Memory(AllocError)
    }
}
