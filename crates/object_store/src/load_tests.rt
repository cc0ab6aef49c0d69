//! Stores and loads of integers and pointers, and where a text ends.
//!
//! The bytes are those of two's complement (6.2.6.2p2), the least first.
ghost use Rattle.std.specs.Prelude.{◌≡◌, ◌+◌, ◌≤◌, length};

use super::*;
use crate::tests::{empty_store, make, pointer, put};
use acc_num::{IntKind, bytes, greatest, least};
use critical_table::Code;
use std::process::Abort;

/// Stores an integer in a range that has to be reached.
fn put_integer(rt: &impl Abort, store: &mut Store, place: Pointer, kind: IntKind, value: i128) {
    let _ = store.taken();
    store
        .reach(place, bytes(kind), 1, By::Store)
        .expect(rt, "put");
    if least(kind) <= value && value <= greatest(kind) {
        store.put_integer(place, kind, value);
    }
}

/// Loads an integer from a range that has to be reached.
fn integer(rt: &impl Abort, store: &Store, place: Pointer, kind: IntKind) -> Result<i128, Code> {
    store
        .reach(place, bytes(kind), 1, By::Star)
        .expect(rt, "load");
    store.view(place, bytes(kind)).integer(kind)
}

/// Eight bytes as one number, the first as the highest two digits.
fn digits(rt: &impl Abort, store: &Store, place: Pointer) -> u64 {
    store.reach(place, 8, 1, By::Star).expect(rt, "digits");
    let view = store.view(place, 8);
    let mut number: u64 = 0;
    for index in 0..8 {
        number = number << 8 | u64::from(view.byte(index).unwrap_or(0));
    }
    number
}

#[test]
fn stores_integers(rt: HostRuntime) {
    let mut store = empty_store(&rt, rt.alloc(), 8);
    let place = pointer(make(&rt, &mut store, 8, Class::Automatic), 0, 8);
    for (kind, value, expected) in [
        (IntKind::Bool, 1, 0x01_00_00_00_00_00_00_00),
        (IntKind::I8, -128, 0x80_00_00_00_00_00_00_00),
        (IntKind::U8, 255, 0xff_00_00_00_00_00_00_00),
        (IntKind::I16, -2, 0xfe_ff_00_00_00_00_00_00),
        (IntKind::U16, 258, 0x02_01_00_00_00_00_00_00),
        (IntKind::I32, -2_147_483_648, 0x00_00_00_80_00_00_00_00),
        (IntKind::U32, 305_419_896, 0x78_56_34_12_00_00_00_00),
        (IntKind::I64, -2, 0xfe_ff_ff_ff_ff_ff_ff_ff),
        (IntKind::U64, 1, 0x01_00_00_00_00_00_00_00),
    ] {
        put(&rt, &mut store, place, &[0; 8]);
        put_integer(&rt, &mut store, place, kind, value);
        assert_eq!(rt; digits(&rt, &store, place), expected, "{kind:?}");
        assert_eq!(rt; integer(&rt, &store, place, kind), Ok(value));
    }
}

#[test]
fn loads_by_kind(rt: HostRuntime) {
    let mut store = empty_store(&rt, rt.alloc(), 8);
    let object = make(&rt, &mut store, 8, Class::Automatic);
    put(&rt, &mut store, pointer(object, 0, 8), &[2, 1, 255, 128]);
    for (offset, kind, expected) in [
        (0, IntKind::Bool, Err(Code::U12)),
        (1, IntKind::Bool, Ok(1)),
        (2, IntKind::I8, Ok(-1)),
        (2, IntKind::U8, Ok(255)),
        (3, IntKind::I8, Ok(-128)),
        (2, IntKind::I16, Ok(-32_513)),
        (2, IntKind::U16, Ok(33_023)),
        (0, IntKind::I32, Ok(-2_130_771_710)),
        (0, IntKind::U32, Ok(2_164_195_586)),
        (4, IntKind::U8, Ok(0)),
        (4, IntKind::I8, Err(Code::U05)),
        (4, IntKind::Bool, Err(Code::U05)),
        (2, IntKind::U32, Err(Code::U05)),
        (0, IntKind::I64, Err(Code::U05)),
    ] {
        let place = pointer(object, offset, 8);
        assert_eq!(rt;
            integer(&rt, &store, place, kind),
            expected,
            "{kind:?} at {offset}"
        );
    }
}

#[test]
fn loads_pointers(rt: HostRuntime) {
    let mut store = empty_store(&rt, rt.alloc(), 32);
    let object = make(&rt, &mut store, 32, Class::Automatic);
    let stored = Pointer {
        object: 4_200_000_001,
        offset: 7,
        low: 260,
        high: 65_536,
    };
    let place = pointer(object, 0, 32);
    let _ = store.taken();
    store.reach(place, 16, 8, By::Store).expect(&rt, "reached");
    store.put_pointer(place, stored);
    assert_eq!(rt;
        integer(&rt, &store, place, IntKind::U32),
        Ok(4_200_000_001)
    );
    for (offset, expected) in [(0, Ok(stored)), (16, Err(Code::U05))] {
        let place = pointer(object, offset, 32);
        store.reach(place, 16, 8, By::Star).expect(&rt, "reached");
        assert_eq!(rt; store.view(place, 16).pointer(), expected);
    }
}

#[test]
fn ends_texts(rt: HostRuntime) {
    let mut store = empty_store(&rt, rt.alloc(), 8);
    let object = make(&rt, &mut store, 8, Class::Automatic);
    let place = pointer(object, 0, 8);
    put(&rt, &mut store, pointer(object, 3, 8), b"a\0b");
    put(&rt, &mut store, place, b"xy");
    store.reach(place, 8, 1, By::TextRead).expect(&rt, "text");
    let view = store.view(place, 8);
    assert_eq!(rt; view.zero(), Some(4));
    assert_eq!(rt; view.text_end(), Some(2));
    if view.len() == 8 {
        assert_eq!(rt; view.part(3, 3).text_end(), Some(1));
        assert_eq!(rt; view.part(0, 2).text_end(), None);
        assert_eq!(rt; view.part(3, 3).byte(2), Some(98));
    }
}
