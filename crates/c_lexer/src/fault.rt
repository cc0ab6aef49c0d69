//! Why there are no tokens.

use critical_table::{Pos, Refusal};
use std::alloc::AllocError;
use thiserror::Error;

/// Why there are no tokens.
#[derive(Debug, Drop, Error)]
pub enum LexFault {
    /// The bytes are no tokens, for this reason, at this place.
    #[error("{0:?} at {1:?}")]
    Refused(Refusal, Pos),
    /// No memory was left.
    #[error("{0}")]
    Memory(AllocError),
}

impl From<AllocError> for LexFault {
    ghost use Rattle.std.specs.Prelude.{◌≡◌};
    ghost use Rattle.c_lexer.specs.declared.fault.LexFault.{LexFault};

    ghost from_gives = { λ cause fault. fault ≡ LexFault.Memory cause };

    fn from(cause: AllocError) -> LexFault {
        LexFault::Memory(cause)
    }
}
