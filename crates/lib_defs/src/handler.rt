//! The handler of runtime-constraints (K.3.6.1).
ghost use Rattle.std.specs.Prelude.{◌≡◌};
ghost use Rattle.lib_defs.specs.Handlers.{set_step, set_handler_after};

use crate::step::LibStep;
use crate::value::Value;
use critical_table::Case;
use object_store::{By, Pointer};

/// The handler of runtime-constraints.
#[derive(Clone, Copy, Debug, PartialEq, Eq)]
pub struct Handler {
    /// The one that is called.
    pub current: Pointer,
    /// `abort_handler_s`, which a null pointer sets.
    pub fallback: Pointer,
}

/// The least number that a function has as the object of a pointer.
const FIRST_FUNCTION: u32 = 4_200_000_000;

/// Sets the handler, and gives the one before (K.3.6.1.1). A null pointer sets `fallback`.
///
/// A pointer that is neither null nor a function's traps with 9.
pub fn set_handler(handler: &mut Handler, new: Pointer) -> LibStep
    ensures answer { result ≡ set_step handler.old new }
    ensures handler { handler.new ≡ set_handler_after handler.old new }
{
    let former = LibStep::Done(Value::Ptr(handler.current));
    if new.object == 0 {
        handler.current = handler.fallback;
        return former;
    }
    if new.object < FIRST_FUNCTION {
        return LibStep::Trap(Case::L9, new, 0, 0, By::OtherRead);
    }
    handler.current = new;
    former
}
