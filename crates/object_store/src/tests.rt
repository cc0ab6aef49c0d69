//! Reaches by the table, stores, and the count of bytes.
ghost use Rattle.std.specs.Prelude.{◌≡◌, ◌+◌, ◌<◌, ◌≤◌, length};

use super::*;
use critical_table::Case;
use std::alloc::Global;
use std::process::Abort;
use std::test::Fail;

/// A pointer to a byte of an object, with the object's bounds.
pub(crate) fn pointer(object: u32, offset: u32, size: u32) -> Pointer {
    Pointer {
        object,
        offset,
        low: 0,
        high: size,
    }
}

/// Stores bytes in a range that has to be reached.
pub(crate) fn put(rt: &impl Abort, store: &mut Store, place: Pointer, bytes: &[u8]) {
    let _ = store.taken();
    let len = u32::try_from(bytes.len()).expect(rt, "a short text");
    store.reach(place, len, 1, By::TextWrite).expect(rt, "put");
    store.put(place, bytes);
}

/// Moves bytes between ranges that have to be reached.
fn copy(rt: &impl Abort, store: &mut Store, to: Pointer, from: Pointer, len: u32) {
    let _ = store.taken();
    store.reach(from, len, 1, By::TextRead).expect(rt, "from");
    store.reach(to, len, 1, By::TextWrite).expect(rt, "to");
    store.copy_within(to, from, len);
}

/// Stores sevens in a range that has to be reached.
pub(crate) fn fill(rt: &impl Abort, store: &mut Store, place: Pointer, len: u32)
    requires { length store.old.writes < 4 }
    ensures { length store.new.writes ≤ length store.old.writes + 1 }
{
    store
        .reach(place, len, 1, By::OtherWrite)
        .expect(rt, "fill");
    store.fill(place, len, 7);
}

/// Makes an object that has to fit.
pub(crate) fn make(rt: &impl Abort, store: &mut Store, size: u32, class: Class) -> u32
    requires size { (0 < size) × (size ≤ 16777216) }
    requires few { length store.old.objects < 100 }
    ensures { length store.new.objects ≤ length store.old.objects + 1 }
{
    store.make(size, class).expect(rt, "make")
}

/// No object of that many bytes fits.
fn expect_full(rt: &impl Abort, store: &mut Store, size: u32)
    requires size { (0 < size) × (size ≤ 16777216) }
    requires few { length store.old.objects < 100 }
    ensures { length store.new.objects ≤ length store.old.objects + 1 }
{
    assert_eq!(rt;
        store.make(size, Class::Allocated),
        Err(MakeFault::OverBytes)
    );
}

/// A store with the message object alone.
pub(crate) fn empty_store(rt: &impl Abort, alloc: Global, bytes: u64) -> Store
    ensures { length result.objects ≤ 1 }
{
    Store::new(alloc, bytes).expect(rt, "store")
}

/// Ends the lifetime of an object, if it lives.
fn kill(store: &mut Store, object: u32)
    ensures { length store.new.objects ≡ length store.old.objects }
{
    if store.is_live(object) {
        store.kill(object);
    }
}

/// The bytes of a range; an indeterminate one is shown as 255.
fn expect_bytes(rt: &impl Abort, store: &Store, place: Pointer, bytes: &[u8]) {
    let len = u32::try_from(bytes.len()).expect(rt, "a short text");
    store.reach(place, len, 1, By::OtherRead).expect(rt, "view");
    let view = store.view(place, len);
    for (index, byte) in bytes.iter().enumerate() {
        if index < view.len() {
            assert_eq!(rt; view.byte(index).unwrap_or(255), *byte, "at {index}");
        }
    }
    assert_eq!(rt; view.len(), bytes.len());
}

#[test]
fn reaches_an_object(rt: HostRuntime) {
    let mut store = empty_store(&rt, rt.alloc(), 12);
    assert_eq!(rt; make(&rt, &mut store, 12, Class::Automatic), 4);
    expect_full(&rt, &mut store, 1);
    assert_eq!(rt; store.live_bytes(), 12);
    for (object, offset, low, high, len, by, answer) in [
        (4, 8, 0, 12, 4, By::Star, Ok(())),
        (4, 12, 0, 12, 4, By::Star, Err(Case::L7)),
        (4, 12, 0, 12, 0, By::Star, Ok(())),
        (4, 10, 0, 12, 4, By::Star, Err(Case::L6)),
        (4, 0, 0, 16, 4, By::Star, Err(Case::L6)),
        (4, 4, 0, 4, 4, By::Star, Err(Case::L7)),
        (3, 0, 0, 4, 4, By::Star, Err(Case::L6)),
        (5, 0, 0, 4, 4, By::Star, Err(Case::L6)),
        (2, 0, 0, 131, 4, By::Store, Err(Case::L5)),
        (2, 0, 0, 131, 4, By::Star, Ok(())),
    ] {
        let place = Pointer {
            object,
            offset,
            low,
            high,
        };
        assert_eq!(rt; store.reach(place, len, 4, by), answer, "{place:?}");
    }
    kill(&mut store, 4);
    assert_eq!(rt;
        store.reach(pointer(4, 0, 12), 4, 4, By::Star),
        Err(Case::L1)
    );
    assert_eq!(rt; make(&rt, &mut store, 12, Class::Allocated), 7);
    kill(&mut store, 7);
    assert_eq!(rt;
        store.reach(pointer(7, 0, 12), 4, 4, By::Star),
        Err(Case::L11)
    );
    assert_eq!(rt; store.live_bytes(), 0);
}

/// A store with a live object 4 of three marked bytes and a plain one, and the dead objects 6 and 9.
fn marked_store(rt: &HostRuntime) -> Result<Store, Fail> {
    let mut store = Store::new(rt.alloc(), 1000)?;
    let object = store.make(4, Class::Static)?;
    store.seal(object, 0, 3, Mark::Clash);
    store.seal(object, 1, 2, Mark::Literal);
    store.seal(object, 2, 1, Mark::Const);
    store.make(4, Class::Automatic)?;
    store.make(4, Class::Allocated)?;
    kill(&mut store, 6);
    kill(&mut store, 9);
    Ok(store)
}

#[test]
fn reaches_by_the_table(rt: HostRuntime) -> Result<(), Fail> {
    let store = marked_store(&rt)?;
    let kinds = [
        By::Star,
        By::Arrow,
        By::Store,
        By::TextRead,
        By::TextWrite,
        By::OtherRead,
        By::OtherWrite,
    ];
    // object, offset, low, high, length, alignment, and the case in each column; 0 is none
    for (object, offset, low, high, len, align, cases) in [
        (0, 9, 5, 1, 4, 4, [6, 4, 6, 9, 9, 9, 9]),
        (6, 9, 5, 1, 4, 4, [1, 1, 1, 1, 1, 1, 1]),
        (9, 9, 5, 1, 4, 4, [11, 11, 11, 11, 11, 11, 11]),
        (4, 5, 0, 5, 4, 4, [6, 4, 6, 9, 9, 9, 9]),
        (4, 1, 2, 1, 4, 4, [6, 4, 6, 9, 9, 9, 9]),
        (4, 3, 0, 3, 4, 4, [7, 4, 7, 12, 12, 9, 9]),
        (4, 1, 2, 4, 4, 4, [6, 4, 6, 12, 12, 9, 9]),
        (4, 1, 0, 4, 4, 4, [6, 4, 6, 12, 12, 9, 9]),
        (4, 1, 0, 4, 3, 2, [6, 4, 6, 9, 9, 9, 9]),
        (4, 0, 0, 4, 4, 4, [0, 0, 2, 0, 2, 0, 2]),
        (4, 1, 0, 4, 3, 1, [0, 0, 5, 0, 5, 0, 5]),
        (4, 2, 0, 4, 2, 2, [0, 0, 8, 0, 8, 0, 8]),
        (4, 3, 0, 4, 1, 1, [0, 0, 0, 0, 0, 0, 0]),
    ] {
        let place = Pointer {
            object,
            offset,
            low,
            high,
        };
        for (by, case) in kinds.iter().zip(cases.iter()) {
            let number = match store.reach(place, len, align, *by) {
                Ok(()) => 0,
                Err(case) => case.number(),
            };
            assert_eq!(rt; number, *case, "{place:?} {by:?}");
        }
    }
    Ok(())
}

#[test]
fn copies_as_through_a_second_copy(rt: HostRuntime) {
    let mut store = empty_store(&rt, rt.alloc(), 1000);
    let text = make(&rt, &mut store, 8, Class::Automatic);
    let other = make(&rt, &mut store, 8, Class::Allocated);
    put(&rt, &mut store, pointer(text, 0, 8), b"abcdef");
    copy(&rt, &mut store, pointer(text, 2, 8), pointer(text, 0, 8), 6);
    expect_bytes(&rt, &store, pointer(text, 0, 8), b"ababcdef");
    copy(&rt, &mut store, pointer(text, 0, 8), pointer(text, 1, 8), 7);
    expect_bytes(&rt, &store, pointer(text, 0, 8), b"babcdeff");
    copy(
        &rt,
        &mut store,
        pointer(other, 1, 8),
        pointer(text, 0, 8),
        2,
    );
    copy(
        &rt,
        &mut store,
        pointer(text, 0, 8),
        pointer(other, 0, 8),
        4,
    );
    expect_bytes(&rt, &store, pointer(text, 0, 8), b"\xffba\xffdeff");
}

#[test]
fn counts_bytes(rt: HostRuntime) {
    let mut store = empty_store(&rt, rt.alloc(), 344);
    let object = make(&rt, &mut store, 88, Class::Allocated);
    store.enter().expect(&rt, "enter");
    assert_eq!(rt; store.live_bytes(), 344);
    assert_eq!(rt; store.enter(), Err(OverBytes));
    for (released, size, fits) in [
        (0, 0, true),
        (0, 1, false),
        (88, 88, true),
        (88, 89, false),
        (700, 344, true),
    ] {
        assert_eq!(rt; store.fits(released, size), fits, "{released} {size}");
    }
    let mut store = empty_store(&rt, rt.alloc(), 344);
    let first = make(&rt, &mut store, 88, Class::Allocated);
    assert_eq!(rt; first, object);
    expect_full(&rt, &mut store, 257);
    assert_eq!(rt; make(&rt, &mut store, 256, Class::Automatic), 6);
    kill(&mut store, first);
    assert_eq!(rt; store.live_bytes(), 256);
    assert_eq!(rt; make(&rt, &mut store, 88, Class::Static), 8);
}

/// A call that is entered and left counts its bytes meanwhile.
#[test]
fn counts_calls(rt: HostRuntime) -> Result<(), Fail> {
    let mut store = empty_store(&rt, rt.alloc(), 511);
    store.enter()?;
    assert_eq!(rt; store.live_bytes(), 256);
    store.leave();
    assert_eq!(rt; store.live_bytes(), 0);
    Ok(())
}

#[test]
fn tells_stores_once(rt: HostRuntime) {
    let mut store = empty_store(&rt, rt.alloc(), 100);
    let object = make(&rt, &mut store, 8, Class::Automatic);
    let none = store.taken();
    assert_eq!(rt; none.len(), 0);
    fill(&rt, &mut store, pointer(object, 0, 8), 3);
    fill(&rt, &mut store, pointer(object, 1, 8), 0);
    fill(&rt, &mut store, pointer(object, 4, 8), 4);
    fill(&rt, &mut store, pointer(object, 0, 8), 8);
    let all = store.taken();
    assert_eq!(rt; all.len(), 3);
    for (index, (at, len)) in [(0, 3), (4, 4), (0, 8)].iter().enumerate() {
        assert_eq!(rt;
            all.get(index),
            Some(Write {
                object,
                at: *at,
                len: *len
            })
        );
    }
    assert_eq!(rt; all.get(3), None);
    assert_eq!(rt; store.taken().len(), 0);
    fill(&rt, &mut store, pointer(object, 7, 8), 1);
    assert_eq!(rt;
        store.taken().get(0),
        Some(Write {
            object,
            at: 7,
            len: 1
        })
    );
}
