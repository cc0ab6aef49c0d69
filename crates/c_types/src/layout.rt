//! Sizes and alignments of basic types and arrays.

ghost use Rattle.std.specs.Prelude.{◌≡◌, IfOk};
ghost use Rattle.std.specs.Result.{result_err};
ghost use Rattle.c_types.specs.Layouts.{kind_of, basic_layout, array_layout, array_fault};

use crate::basic::Basic;
use crate::fault::LayoutFault;
use acc_num::IntKind;

/// The size of a type in bytes, and its alignment (6.2.8).
#[derive(Clone, Copy, Debug, PartialEq, Eq)]
pub struct Layout {
    pub size: u32,
    pub align: u32,
}

impl Layout {
    /// A pointer has 16 bytes and is aligned to 8.
    pub const POINTER: Layout = Layout { size: 16, align: 8 };

    /// An `int`, and so an enumerated type (6.7.2.2p4).
    pub const INT: Layout = Layout { size: 4, align: 4 };
}

/// The kind of integer that a basic type holds; `void` holds none (6.2.5p4 to p7; `char` is signed).
pub fn kind_of(basic: Basic) -> Option<IntKind>
    ensures { result ≡ kind_of basic }
{
    match basic {
        Basic::Void => None,
        Basic::Bool => Some(IntKind::Bool),
        Basic::Char | Basic::SChar => Some(IntKind::I8),
        Basic::UChar => Some(IntKind::U8),
        Basic::Short => Some(IntKind::I16),
        Basic::UShort => Some(IntKind::U16),
        Basic::Int => Some(IntKind::I32),
        Basic::UInt => Some(IntKind::U32),
        Basic::Long | Basic::LongLong => Some(IntKind::I64),
        Basic::ULong | Basic::ULongLong => Some(IntKind::U64),
    }
}

/// The layout of a basic type. A scalar is aligned to its size; `void` has none (6.2.5p19).
pub fn basic_layout(basic: Basic) -> Option<Layout>
    ensures { result ≡ basic_layout basic }
{
    let size = match kind_of(basic)? {
        IntKind::Bool | IntKind::I8 | IntKind::U8 => 1,
        IntKind::I16 | IntKind::U16 => 2,
        IntKind::I32 | IntKind::U32 => 4,
        IntKind::I64 | IntKind::U64 => 8,
    };
    Some(Layout { size, align: size })
}

/// The largest object has this many bytes.
pub const LARGEST: u32 = 16_777_216;

/// The layout of an array of elements with this layout; none without a length.
///
/// `Incomplete` comes exactly where the elements have no layout, and else `TooLarge` where the array would have more
/// than the largest size.
pub fn array_layout(
    element: Option<Layout>,
    length: Option<u64>,
) -> Result<Option<Layout>, LayoutFault>
    ensures layout { IfOk result (λ layout. layout ≡ array_layout element length) }
    ensures fault { array_fault element length ≡ result_err result }
{
    let Some(element) = element else {
        return Err(LayoutFault::Incomplete);
    };
    let Some(n) = length else {
        return Ok(None);
    };
    let size = u128::from(n) * u128::from(element.size);
    if size > u128::from(LARGEST) {
        return Err(LayoutFault::TooLarge);
    }
    Ok(Some(Layout {
        size: size as u32,
        align: element.align,
    }))
}
