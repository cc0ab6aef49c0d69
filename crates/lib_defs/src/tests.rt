//! Each public call, and the names and messages against tables that are written by hand.
ghost use Rattle.lib_defs.specs.Units.{IsByte, IsWide};

use super::*;
use critical_table::Case;
use object_store::{By, Class, Pointer, Store};
use std::process::Abort;
use std::test::Fail;

/// The names of all library functions, from the tables of Annex K, of clause 7, and of input and output.
const NAMES: [&str; 53] = [
    "memcpy_s",
    "wmemcpy_s",
    "memmove_s",
    "wmemmove_s",
    "memset_s",
    "strcpy_s",
    "wcscpy_s",
    "strncpy_s",
    "wcsncpy_s",
    "strcat_s",
    "wcscat_s",
    "strncat_s",
    "wcsncat_s",
    "strtok_s",
    "wcstok_s",
    "strerror_s",
    "wctomb_s",
    "strnlen_s",
    "wcsnlen_s",
    "strerrorlen_s",
    "set_constraint_handler_s",
    "abort_handler_s",
    "ignore_handler_s",
    "memcpy",
    "memmove",
    "wmemcpy",
    "memset",
    "wmemset",
    "memcmp",
    "memchr",
    "strlen",
    "wcslen",
    "strcpy",
    "wcscpy",
    "strcat",
    "wcscat",
    "strncpy",
    "strncat",
    "strcmp",
    "strncmp",
    "wcscmp",
    "strchr",
    "strrchr",
    "malloc",
    "calloc",
    "realloc",
    "free",
    "exit",
    "abort",
    "putchar",
    "puts",
    "getchar",
    "printf",
];

fn expect_name(rt: &impl Abort, number: u16, name: &str) {
    let row = row_of(name.as_bytes()).expect(rt, "a row");
    assert_eq!(rt; row, Row(number), "{name}");
    assert_eq!(rt; name_of(row), name);
}

#[test]
fn names_each_row(rt: HostRuntime) {
    for number in 0..53u16 {
        expect_name(&rt, number, NAMES[usize::from(number)]);
    }
    for name in ["", "memcpy_", "memcpy_ss", "Memcpy_s", "bsearch_s"] {
        assert_eq!(rt; row_of(name.as_bytes()), None, "{name}");
    }
}

#[test]
fn keeps_arguments(rt: HostRuntime) -> Result<(), Fail> {
    let mut args = Args::with_room(rt.alloc(), 2)?;
    let number = Arg {
        value: Value::Num(-1),
        kind: ArgKind::Long,
    };
    let pointer = Arg {
        value: Value::Ptr(pointer(4)),
        kind: ArgKind::CharPointer,
    };
    args.push(number);
    args.push(pointer);
    assert_eq!(rt; args.len(), 2);
    assert_eq!(rt; args.get(0), Some(number));
    assert_eq!(rt; args.get(1), Some(pointer));
    assert_eq!(rt; args.get(2), None);
    args.clear();
    assert_eq!(rt; args.len(), 0);
    args.push(pointer);
    assert_eq!(rt; args.get(0), Some(pointer));
    Ok(())
}

fn pointer(object: u32) -> Pointer {
    Pointer {
        object,
        offset: 0,
        low: 0,
        high: 0,
    }
}

/// The text that a handler is told, as it stands in a store.
fn expect_text(rt: &impl Abort, store: &Store, place: Pointer, text: &str) {
    let len = u32::try_from(text.len()).expect(rt, "a short text");
    store.reach(place, len, 1, By::OtherRead).expect(rt, "text");
    let view = store.view(place, len);
    for (index, byte) in text.as_bytes().iter().enumerate() {
        if index < view.len() {
            assert_eq!(rt; view.byte(index), Some(*byte), "{text}");
        }
    }
}

#[test]
fn tells_messages(rt: HostRuntime) -> Result<(), Fail> {
    let store = Store::new(rt.alloc(), 0)?;
    for (class, errno, at, end, text) in [
        (Violation::NullPointer, 22, 0, 13, "null pointer"),
        (Violation::SizeAbove, 34, 13, 34, "size above RSIZE_MAX"),
        (Violation::SizeZero, 34, 34, 47, "size is zero"),
        (Violation::DoesNotFit, 34, 47, 60, "does not fit"),
        (Violation::NotEnded, 34, 60, 82, "destination not ended"),
        (Violation::Overlap, 22, 82, 98, "objects overlap"),
        (Violation::TokenNotEnded, 22, 98, 114, "token not ended"),
        (Violation::SizeNotZero, 34, 114, 131, "size is not zero"),
    ] {
        let place = Pointer {
            object: 2,
            offset: at,
            low: at,
            high: end,
        };
        assert_eq!(rt; class.errno(), errno, "{text}");
        assert_eq!(rt; class.message(), place, "{text}");
        expect_text(&rt, &store, place, text);
    }
    Ok(())
}

#[test]
fn tells_constraints(rt: HostRuntime) {
    assert_eq!(rt; message(Row(0), 6), Violation::Overlap.message());
    assert_eq!(rt; message(Row(16), 3), Violation::SizeNotZero.message());
    assert_eq!(rt; Row(16).violation(4), None);
    assert_eq!(rt; Row(16).violation(0), None);
    assert_eq!(rt; Row(17).violation(1), None);
    assert_eq!(rt; Row(53).name(), None);
}

#[test]
fn sets_handlers(rt: HostRuntime) {
    let mut handler = Handler {
        current: pointer(4_200_000_021),
        fallback: pointer(4_200_000_021),
    };
    let guest = pointer(4_200_000_000);
    assert_eq!(rt;
        set_handler(&mut handler, guest),
        LibStep::Done(Value::Ptr(pointer(4_200_000_021)))
    );
    assert_eq!(rt; handler.current, guest);
    let object = pointer(4_199_999_999);
    assert_eq!(rt;
        set_handler(&mut handler, object),
        LibStep::Trap(Case::L9, object, 0, 0, By::OtherRead)
    );
    assert_eq!(rt; handler.current, guest);
    assert_eq!(rt;
        set_handler(&mut handler, pointer(0)),
        LibStep::Done(Value::Ptr(guest))
    );
    assert_eq!(rt; handler.current, pointer(4_200_000_021));
}

fn byte_comes_back(rt: &impl Abort, store: &mut Store, unit: i64)
    requires { IsByte unit }
{
    let mut cells = [0; 1];
    Byte::write(unit, &mut cells);
    let place = Pointer {
        object: 4,
        offset: 1,
        low: 0,
        high: 8,
    };
    let _ = store.taken();
    store.reach(place, 1, 1, By::TextWrite).expect(rt, "byte");
    store.put(place, &cells);
    store.reach(place, 1, 1, By::TextRead).expect(rt, "byte");
    assert_eq!(rt; Byte::read(&store.view(place, 1), 0), Some(unit));
}

fn wide_comes_back(rt: &impl Abort, store: &mut Store, unit: i64)
    requires { IsWide unit }
{
    let mut cells = [0; 4];
    Wide::write(unit, &mut cells);
    let place = Pointer {
        object: 4,
        offset: 4,
        low: 0,
        high: 8,
    };
    let _ = store.taken();
    store.reach(place, 4, 4, By::TextWrite).expect(rt, "wide");
    store.put(place, &cells);
    store.reach(place, 4, 4, By::TextRead).expect(rt, "wide");
    assert_eq!(rt; Wide::read(&store.view(place, 4), 0), Some(unit));
}

#[test]
fn reads_what_was_written(rt: HostRuntime) -> Result<(), Fail> {
    let mut store = Store::new(rt.alloc(), 100)?;
    store.make(8, Class::Automatic)?;
    byte_comes_back(&rt, &mut store, 0);
    byte_comes_back(&rt, &mut store, 255);
    wide_comes_back(&rt, &mut store, 0);
    wide_comes_back(&rt, &mut store, 65);
    wide_comes_back(&rt, &mut store, -1);
    wide_comes_back(&rt, &mut store, 2_147_483_647);
    wide_comes_back(&rt, &mut store, -2_147_483_648);
    Ok(())
}
