//! The undefined behaviours beside the critical ones, as codes.

ghost use Rattle.std.specs.Prelude.{◌≡◌, ◌≤◌, length};

/// An undefined behaviour that is bounded (Annex L), and stops the run.
#[derive(Clone, Copy, Debug, PartialEq, Eq)]
pub enum Code {
    /// A signed result is not in the range of its type (6.5p5).
    U01,
    /// The second operand of `/` or `%` is zero (6.5.5p5).
    U02,
    /// The count or the left operand of a shift is out of range (6.5.7).
    U03,
    /// The value of a call is used whose function ended without one (6.9.1p12).
    U04,
    /// An indeterminate value is read (6.2.6.1).
    U05,
    /// A pointer is moved outside of its array (6.5.6p8).
    U06,
    /// Pointers that do not point into one array are subtracted (6.5.6p9).
    U07,
    /// Pointers that do not point into one object are compared by order (6.5.8p5).
    U08,
    /// A conversion specification is undefined, or outside of the profile (7.21.6.1).
    U09,
    /// Source and destination of an assignment overlap without being the same place (6.5.16.1p3).
    U10,
    /// Source and destination of a library copy overlap (7.24.2).
    U11,
    /// A `_Bool` is read whose byte is neither 0 nor 1 (6.2.6.1).
    U12,
}

impl Code {
    ghost use Rattle.critical_table.specs.Texts.{code_row};

    /// The name of the code, as `U01`.
    pub fn name(self) -> &'static str
        ensures value { result.now ≡ (code_row self).name }
        ensures short { length result.now ≤ 3 }
    {
        match self {
            Code::U01 => "U01",
            Code::U02 => "U02",
            Code::U03 => "U03",
            Code::U04 => "U04",
            Code::U05 => "U05",
            Code::U06 => "U06",
            Code::U07 => "U07",
            Code::U08 => "U08",
            Code::U09 => "U09",
            Code::U10 => "U10",
            Code::U11 => "U11",
            Code::U12 => "U12",
        }
    }

    /// What is told of the code.
    pub fn text(self) -> &'static str
        ensures value { result.now ≡ (code_row self).text }
        ensures short { length result.now ≤ 60 }
    {
        match self {
            Code::U01 => "signed result out of range",
            Code::U02 => "division by zero",
            Code::U03 => "invalid shift",
            Code::U04 => "value of a call that returned none",
            Code::U05 => "indeterminate value read",
            Code::U06 => "pointer moved outside its array",
            Code::U07 => "difference of unrelated pointers",
            Code::U08 => "order of unrelated pointers",
            Code::U09 => "conversion undefined or outside the profile",
            Code::U10 => "overlapping assignment",
            Code::U11 => "overlapping copy",
            Code::U12 => "invalid truth value read",
        }
    }
}
