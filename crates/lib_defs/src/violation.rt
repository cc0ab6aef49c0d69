//! The classes of runtime-constraints, with what a handler is told of each (K.3.1.4, K.3.6.1).
ghost use Rattle.std.specs.Prelude.{◌≡◌};
ghost use Rattle.lib_defs.specs.Violations.{errno_of, message_place};

use object_store::Pointer;

/// Why a runtime-constraint is violated.
#[derive(Clone, Copy, Debug, PartialEq, Eq)]
pub enum Violation {
    /// A pointer is null.
    NullPointer,
    /// A size is above `RSIZE_MAX`.
    SizeAbove,
    /// The size of a destination is zero.
    SizeZero,
    /// What is to be stored does not fit the destination.
    DoesNotFit,
    /// The destination's text is not ended within its size.
    NotEnded,
    /// The bytes that are read and those that are written overlap.
    Overlap,
    /// The token is not ended within the text's size.
    TokenNotEnded,
    /// The size beside a null pointer is not zero.
    SizeNotZero,
}

impl Violation {
    /// The value that a handler is told: `EINVAL` is 22, `ERANGE` is 34.
    pub fn errno(self) -> i32
        ensures { result ≡ errno_of self }
    {
        match self {
            Violation::NullPointer | Violation::Overlap | Violation::TokenNotEnded => 22,
            Violation::SizeAbove
            | Violation::SizeZero
            | Violation::DoesNotFit
            | Violation::NotEnded
            | Violation::SizeNotZero => 34,
        }
    }

    /// The text that a handler is told, in the message object, with the one text and its null as bounds.
    pub fn message(self) -> Pointer
        ensures { result ≡ message_place self }
    {
        let (at, end) = match self {
            Violation::NullPointer => (0, 13),
            Violation::SizeAbove => (13, 34),
            Violation::SizeZero => (34, 47),
            Violation::DoesNotFit => (47, 60),
            Violation::NotEnded => (60, 82),
            Violation::Overlap => (82, 98),
            Violation::TokenNotEnded => (98, 114),
            Violation::SizeNotZero => (114, 131),
        };
        Pointer {
            object: 2,
            offset: at,
            low: at,
            high: end,
        }
    }
}
