//! The critical undefined behaviours of L.3p2 as numbered cases.

ghost use Rattle.std.specs.Prelude.{◌≡◌, ◌≤◌, length};

/// A critical undefined behaviour of Annex L: the items of the list in L.3p2, numbered from 1 in its order.
#[derive(Clone, Copy, Debug, PartialEq, Eq)]
pub enum Case {
    /// An object is referred to outside of its lifetime (6.2.4).
    L1,
    /// A store is performed to an object that has two incompatible declarations (6.2.7).
    L2,
    /// A pointer is used to call a function whose type is not compatible with the referenced type (6.2.7, 6.5.2.2).
    L3,
    /// An lvalue does not designate an object when evaluated (6.3.2.1).
    L4,
    /// The program attempts to modify a string literal (6.4.5).
    L5,
    /// The operand of the unary `*` operator has an invalid value (6.5.3.2).
    L6,
    /// A pointer just beyond an array is the operand of a unary `*` operator that is evaluated (6.5.6).
    L7,
    /// An attempt is made to modify an object defined with a const-qualified type (6.7.3).
    L8,
    /// An argument to a library function has an invalid value or a type not expected by it (7.1.4).
    L9,
    /// `longjmp` is called with an environment whose `setjmp` is not active (7.13.2.1).
    L10,
    /// The value of a pointer that refers to space deallocated by `free` or `realloc` is used (7.22.3).
    L11,
    /// A string or wide string function accesses an array beyond the end of an object (7.24.1, 7.29.4).
    L12,
}

impl Case {
    ghost use Rattle.critical_table.specs.Texts.{case_row};

    /// The number of the case, from 1 to 12.
    pub fn number(self) -> u8
        ensures value { result ≡ (case_row self).number }
        ensures small { result ≤ 12 }
    {
        match self {
            Case::L1 => 1,
            Case::L2 => 2,
            Case::L3 => 3,
            Case::L4 => 4,
            Case::L5 => 5,
            Case::L6 => 6,
            Case::L7 => 7,
            Case::L8 => 8,
            Case::L9 => 9,
            Case::L10 => 10,
            Case::L11 => 11,
            Case::L12 => 12,
        }
    }

    /// The section of the standard that the case names.
    pub fn section(self) -> &'static str
        ensures value { result.now ≡ (case_row self).section }
        ensures short { length result.now ≤ 8 }
    {
        match self {
            Case::L1 => "6.2.4",
            Case::L2 => "6.2.7",
            Case::L3 => "6.5.2.2",
            Case::L4 => "6.3.2.1",
            Case::L5 => "6.4.5",
            Case::L6 => "6.5.3.2",
            Case::L7 => "6.5.6",
            Case::L8 => "6.7.3",
            Case::L9 => "7.1.4",
            Case::L10 => "7.13.2.1",
            Case::L11 => "7.22.3",
            Case::L12 => "7.24.1",
        }
    }

    /// What is told of the case.
    pub fn text(self) -> &'static str
        ensures value { result.now ≡ (case_row self).text }
        ensures short { length result.now ≤ 60 }
    {
        match self {
            Case::L1 => "object used outside its lifetime",
            Case::L2 => "store to an object with two incompatible declarations",
            Case::L3 => "function called through an incompatible type",
            Case::L4 => "lvalue designates no object",
            Case::L5 => "string literal modified",
            Case::L6 => "invalid operand of unary *",
            Case::L7 => "element just beyond the array used",
            Case::L8 => "const object modified",
            Case::L9 => "invalid library argument",
            Case::L10 => "invalid longjmp",
            Case::L11 => "pointer to released space used",
            Case::L12 => "library access beyond the object",
        }
    }
}
