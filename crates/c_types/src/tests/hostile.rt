//! Types that nest deep, or hold a part twice at each step, as a hostile unit makes them.

ghost use Rattle.std.specs.Prelude.{◌<◌, ◌≤◌, IfOk};
ghost use Rattle.c_types.specs.Types.{count_of};

use crate::{Basic, TypeId, TypeTable};
use std::alloc::AllocError;
use std::test::Fail;

// `typedef T1 *T2;` so many times
fn pointers(table: &mut TypeTable, lines: u64) -> Result<TypeId, AllocError>
    ensures there { IfOk result (λ id. id.0 < count_of table.new) }
    ensures count { IfOk result (λ _. count_of table.old ≤ count_of table.new) }
{
    let mut id = table.basic(Basic::Int);
    for _line in 0..lines {
        id = table.pointer(id)?;
    }
    Ok(id)
}

// `typedef F1 F2(void);` so many times, from `int` on: what C refuses, but a table makes
fn functions(table: &mut TypeTable, lines: u64) -> Result<TypeId, AllocError>
    ensures there { IfOk result (λ id. id.0 < count_of table.new) }
    ensures count { IfOk result (λ _. count_of table.old ≤ count_of table.new) }
{
    let mut id = table.basic(Basic::Int);
    for _line in 0..lines {
        id = table.function(id, &[], false)?;
    }
    Ok(id)
}

// `typedef void F2(F1 *);` so many times, from `void (void)` on
fn takers(table: &mut TypeTable, lines: u64) -> Result<TypeId, AllocError>
    ensures there { IfOk result (λ id. id.0 < count_of table.new) }
    ensures count { IfOk result (λ _. count_of table.old ≤ count_of table.new) }
{
    let void = table.basic(Basic::Void);
    let mut id = table.function(void, &[], false)?;
    for _line in 0..lines {
        let to = table.pointer(id)?;
        id = table.function(void, &[to], false)?;
    }
    Ok(id)
}

// `typedef void F2(F1 *, F1 *);` so many times, from `void (void)` on
fn doublings(table: &mut TypeTable, lines: u64) -> Result<TypeId, AllocError>
    ensures there { IfOk result (λ id. id.0 < count_of table.new) }
    ensures count { IfOk result (λ _. count_of table.old ≤ count_of table.new) }
{
    let void = table.basic(Basic::Void);
    let mut id = table.function(void, &[], false)?;
    for _line in 0..lines {
        let to = table.pointer(id)?;
        id = table.function(void, &[to, to], false)?;
    }
    Ok(id)
}

#[test]
fn a_pointer_nests_4095_deep_and_no_deeper(rt: HostRuntime) -> Result<(), Fail> {
    let mut table = TypeTable::new(rt.alloc())?;
    let deep = pointers(&mut table, 4_095)?;
    assert_eq!(rt; table.parts(deep), 4_096);
    let other = pointers(&mut table, 4_095)?;
    assert!(rt; table.compatible(deep, other));
    assert!(rt; table.composite(deep, other).is_ok());
    assert!(rt; pointers(&mut table, 4_096).is_err());
    assert!(rt; pointers(&mut table, 100_000).is_err());
    Ok(())
}

#[test]
fn functions_nest_as_deep(rt: HostRuntime) -> Result<(), Fail> {
    let mut table = TypeTable::new(rt.alloc())?;
    let deep = functions(&mut table, 4_095)?;
    let other = functions(&mut table, 4_095)?;
    assert!(rt; table.compatible(deep, other));
    assert!(rt; table.composite(deep, other).is_ok());
    assert!(rt; functions(&mut table, 4_096).is_err());
    Ok(())
}

#[test]
fn parameters_nest_as_deep(rt: HostRuntime) -> Result<(), Fail> {
    let mut table = TypeTable::new(rt.alloc())?;
    let deep = takers(&mut table, 1_364)?;
    assert_eq!(rt; table.parts(deep), 4_094);
    let other = takers(&mut table, 1_364)?;
    assert!(rt; table.compatible(deep, other));
    assert!(rt; table.composite(deep, other).is_ok());
    assert!(rt; takers(&mut table, 1_365).is_err());
    Ok(())
}

#[test]
fn a_part_that_stands_twice_counts_twice(rt: HostRuntime) -> Result<(), Fail> {
    let mut table = TypeTable::new(rt.alloc())?;
    let wide = doublings(&mut table, 9)?;
    assert_eq!(rt; table.parts(wide), 3_068);
    let other = doublings(&mut table, 9)?;
    assert!(rt; table.compatible(wide, other));
    assert!(rt; table.composite(wide, other).is_ok());
    assert!(rt; doublings(&mut table, 40).is_err());
    Ok(())
}
