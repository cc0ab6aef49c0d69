//! What a table keeps: for each id, for each function type, and for each structure or union.

ghost use Rattle.std.specs.Prelude.{◌≡◌};

use crate::basic::Basic;
use crate::layout::{Layout, basic_layout};
use crate::member::Member;
use crate::shape::{Quals, Shape, TypeId};

/// What the table keeps for an id.
///
/// The layout of a compound type stands with its body. `parts` is how many parts the type has, itself counted, each as
/// often as it stands in it; a structure, union or enumerated type is one part.
#[derive(Clone, Copy, Debug, PartialEq, Eq)]
pub struct Made {
    pub shape: Shape,
    pub quals: Quals,
    pub layout: Option<Layout>,
    pub parts: u32,
}

impl Made {
    ghost use Rattle.c_types.specs.Inner.{entry_of, basics};
    ghost use Rattle.c_types.specs.CType.{no_quals, number_of};

    /// An unqualified basic type.
    pub fn basic(basic: Basic) -> Made
        ensures { result ≡ entry_of basic }
    {
        Made {
            shape: Shape::Basic(basic),
            quals: Quals::NONE,
            layout: basic_layout(basic),
            parts: 1,
        }
    }

    /// An unqualified type of so many parts, whose layout stands elsewhere, or that has none.
    pub fn plain(shape: Shape, parts: u32) -> Made
        ensures { result ≡ record { shape = shape; quals = no_quals; layout = None; parts = parts } }
    {
        Made {
            shape,
            quals: Quals::NONE,
            layout: None,
            parts,
        }
    }

    /// The number of a basic type, which is also its id in each table.
    pub fn place(basic: Basic) -> u64
        ensures { result ≡ number_of basic }
    {
        match basic {
            Basic::Void => 0,
            Basic::Bool => 1,
            Basic::Char => 2,
            Basic::SChar => 3,
            Basic::UChar => 4,
            Basic::Short => 5,
            Basic::UShort => 6,
            Basic::Int => 7,
            Basic::UInt => 8,
            Basic::Long => 9,
            Basic::ULong => 10,
            Basic::LongLong => 11,
            Basic::ULongLong => 12,
        }
    }

    /// The types that each table begins with.
    pub fn basics() -> [Made; 13]
        ensures { result ≡ basics }
    {
        [
            Made::basic(Basic::Void),
            Made::basic(Basic::Bool),
            Made::basic(Basic::Char),
            Made::basic(Basic::SChar),
            Made::basic(Basic::UChar),
            Made::basic(Basic::Short),
            Made::basic(Basic::UShort),
            Made::basic(Basic::Int),
            Made::basic(Basic::UInt),
            Made::basic(Basic::Long),
            Made::basic(Basic::ULong),
            Made::basic(Basic::LongLong),
            Made::basic(Basic::ULongLong),
        ]
    }
}

/// The result and the parameters of a function type.
#[derive(Debug, Drop)]
pub struct Signature {
    pub gives: TypeId,
    pub parameters: Vec<TypeId>,
    pub variadic: bool,
}

/// A structure or union, with its body once it is complete.
#[derive(Debug, Drop)]
pub struct CompoundType {
    pub is_union: bool,
    pub body: Option<Body>,
}

/// The members of a structure or union in order, its layout, and whether it has a const member at any depth.
#[derive(Debug, Drop)]
pub struct Body {
    pub members: Vec<Member>,
    pub layout: Layout,
    pub has_const: bool,
}

/// The most parts that a type of a table has.
pub const MOST_PARTS: u32 = 4096;
