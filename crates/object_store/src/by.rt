//! The kinds of accesses, and the case of each where an access fails.
use critical_table::Case;

/// The kind of an access: a column of the table of reaches.
#[derive(Clone, Copy, Debug, PartialEq, Eq)]
pub enum By {
    /// A read by unary `*` or by `[` and `]`.
    Star,
    /// A read by `->`.
    Arrow,
    /// A store of the unit's own.
    Store,
    /// A read by a row of the string and memory functions.
    TextRead,
    /// A store by a row of the string and memory functions.
    TextWrite,
    /// A read by another library row.
    OtherRead,
    /// A store by another library row.
    OtherWrite,
}

impl By {
    ghost use Rattle.std.specs.Prelude.{◌≡◌, Some};
    ghost use Rattle.critical_table.specs.declared.case.Case.TheVariants.{L4, L6, L7, L9, L12};
    ghost use Rattle.object_store.specs.Reach.{columns, stores};

    /// Whether an access of this kind stores.
    pub fn stores(self) -> bool
        ensures { result ≡ stores self }
    {
        matches!(self, By::Store | By::TextWrite | By::OtherWrite)
    }

    /// The case of a pointer that no object fits.
    pub(crate) fn invalid(self) -> Case
        ensures { columns (Some L6) (Some L4) (Some L6) (Some L9) (Some L9) (Some L9) (Some L9) self ≡ Some result }
    {
        match self {
            By::Star | By::Store => Case::L6,
            By::Arrow => Case::L4,
            By::TextRead | By::TextWrite | By::OtherRead | By::OtherWrite => Case::L9,
        }
    }

    /// The case of a pointer just beyond its bounds.
    pub(crate) fn at_end(self) -> Case
        ensures { columns (Some L7) (Some L4) (Some L7) (Some L12) (Some L12) (Some L9) (Some L9) self ≡ Some result }
    {
        match self {
            By::Star | By::Store => Case::L7,
            By::Arrow => Case::L4,
            By::TextRead | By::TextWrite => Case::L12,
            By::OtherRead | By::OtherWrite => Case::L9,
        }
    }

    /// The case of a range that is not within the pointer's bounds.
    pub(crate) fn outside(self) -> Case
        ensures { columns (Some L6) (Some L4) (Some L6) (Some L12) (Some L12) (Some L9) (Some L9) self ≡ Some result }
    {
        match self {
            By::Star | By::Store => Case::L6,
            By::Arrow => Case::L4,
            By::TextRead | By::TextWrite => Case::L12,
            By::OtherRead | By::OtherWrite => Case::L9,
        }
    }
}
