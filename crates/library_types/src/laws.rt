//! What holds of the types of the library functions.
ghost use Rattle.library_types.specs.PrototypeLaw.{TypesAgree};

/// The type of each library function has the kinds of arguments, and gives what its calls give.
pub fn prototype_law()
    ensures { TypesAgree }
{}
