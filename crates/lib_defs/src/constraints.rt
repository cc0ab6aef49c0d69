//! The constraints of the rows by number, and the message of each.
ghost use Rattle.std.specs.Prelude.{◌≡◌, IsSome, IfSome};
ghost use Rattle.lib_defs.specs.Violations.{message_place};
ghost use Rattle.lib_defs.specs.RowTable.{row_classes, violation_at};

use crate::row::Row;
use crate::row_name::RowName;
use crate::violation::Violation;
use object_store::Pointer;

/// The classes of the constraints of `memcpy_s` in order; those of `memmove_s` are all but the last.
const COPIES: [Violation; 6] = [
    Violation::NullPointer,
    Violation::NullPointer,
    Violation::SizeAbove,
    Violation::SizeAbove,
    Violation::DoesNotFit,
    Violation::Overlap,
];

const MOVES: [Violation; 5] = [
    Violation::NullPointer,
    Violation::NullPointer,
    Violation::SizeAbove,
    Violation::SizeAbove,
    Violation::DoesNotFit,
];

const FILLS: [Violation; 4] = [
    Violation::NullPointer,
    Violation::SizeAbove,
    Violation::SizeAbove,
    Violation::DoesNotFit,
];

const TEXT_COPIES: [Violation; 6] = [
    Violation::NullPointer,
    Violation::NullPointer,
    Violation::SizeAbove,
    Violation::SizeZero,
    Violation::DoesNotFit,
    Violation::Overlap,
];

const PART_COPIES: [Violation; 7] = [
    Violation::NullPointer,
    Violation::NullPointer,
    Violation::SizeAbove,
    Violation::SizeAbove,
    Violation::SizeZero,
    Violation::DoesNotFit,
    Violation::Overlap,
];

const APPENDS: [Violation; 7] = [
    Violation::NullPointer,
    Violation::NullPointer,
    Violation::SizeAbove,
    Violation::SizeZero,
    Violation::NotEnded,
    Violation::DoesNotFit,
    Violation::Overlap,
];

const PART_APPENDS: [Violation; 8] = [
    Violation::NullPointer,
    Violation::NullPointer,
    Violation::SizeAbove,
    Violation::SizeAbove,
    Violation::SizeZero,
    Violation::NotEnded,
    Violation::DoesNotFit,
    Violation::Overlap,
];

const TOKENS: [Violation; 6] = [
    Violation::NullPointer,
    Violation::NullPointer,
    Violation::NullPointer,
    Violation::NullPointer,
    Violation::SizeAbove,
    Violation::TokenNotEnded,
];

const ERROR_TEXTS: [Violation; 3] = [
    Violation::NullPointer,
    Violation::SizeAbove,
    Violation::SizeZero,
];

const WIDE_CHARS: [Violation; 3] = [
    Violation::DoesNotFit,
    Violation::SizeAbove,
    Violation::SizeNotZero,
];

/// The message that a handler is told where the constraint with this number, from 1, is violated.
pub fn message(row: Row, constraint: u8) -> Pointer
    requires { IsSome (violation_at row constraint) }
    ensures { IfSome (violation_at row constraint) (λ class. result ≡ message_place class) }
{
    row.violation(constraint).unwrap().message()
}

impl Row {
    /// The class of the function's constraint with this number, from 1; `None` exactly where it has none.
    pub fn violation(self, constraint: u8) -> Option<Violation>
        ensures { result ≡ violation_at self constraint }
    {
        if constraint == 0 {
            return None;
        }
        classes(self.name()?)
            .get(usize::from(constraint) - 1)
            .copied()
    }
}

/// The classes of the function's constraints in order.
fn classes(name: RowName) -> &'static [Violation]
    ensures { result.now ≡ row_classes name }
{
    match name {
        RowName::MemcpyS | RowName::WmemcpyS => &COPIES,
        RowName::MemmoveS | RowName::WmemmoveS => &MOVES,
        RowName::MemsetS => &FILLS,
        RowName::StrcpyS | RowName::WcscpyS => &TEXT_COPIES,
        RowName::StrncpyS | RowName::WcsncpyS => &PART_COPIES,
        RowName::StrcatS | RowName::WcscatS => &APPENDS,
        RowName::StrncatS | RowName::WcsncatS => &PART_APPENDS,
        RowName::StrtokS | RowName::WcstokS => &TOKENS,
        RowName::StrerrorS => &ERROR_TEXTS,
        RowName::WctombS => &WIDE_CHARS,
        _ => &[],
    }
}
