//! The law of the numbers of library functions.

ghost use Rattle.c_predeclared.specs.Predeclared.{NumbersAgree};

/// Each function that is bound has the number by which the library knows it.
pub fn number_law()
    ensures { NumbersAgree }
{}
