//! Qualifiers, const members and enumerated types: each call once, with memory.

use crate::{Basic, Layout, Quals, Shape, TypeTable};
use critical_table::Name;
use std::alloc::Global;
use std::test::Fail;

const CONST: Quals = Quals {
    constant: true,
    ..Quals::NONE
};

#[test]
fn functions_are_compatible_without_the_qualifiers_of_parameters(
    rt: HostRuntime,
) -> Result<(), Fail> {
    let mut table = TypeTable::new(rt.alloc())?;
    let int = table.basic(Basic::Int);
    let constant = table.qualified(int, CONST)?;
    let plain = table.function(int, &[int], false)?;
    let other = table.function(int, &[constant], false)?;
    assert!(rt; table.compatible(other, plain));
    assert!(rt; !table.compatible(int, constant));
    let composite = table.composite(other, plain)?;
    assert!(rt; matches!(table.shape(composite), Shape::Function(_)));
    Ok(())
}

#[test]
fn enumerated_types_are_compatible_with_int_and_not_with_each_other(
    rt: HostRuntime,
) -> Result<(), Fail> {
    let mut table = TypeTable::new(rt.alloc())?;
    let int = table.basic(Basic::Int);
    let colour = table.enumerated()?;
    let shade = table.enumerated()?;
    assert!(rt; table.compatible(int, colour));
    assert!(rt; !table.compatible(colour, shade));
    assert_eq!(rt; table.layout(shade), Some(Layout::INT));
    Ok(())
}

#[test]
fn an_array_takes_and_gives_up_qualifiers_with_its_elements(rt: HostRuntime) -> Result<(), Fail> {
    let mut table = TypeTable::new(rt.alloc())?;
    let int = table.basic(Basic::Int);
    let row = table.array(int, Some(3))?;
    let constant = table.qualified(row, CONST)?;
    assert!(rt; table.quals(constant).constant);
    assert!(rt; table.has_const(constant));
    let bare = table.unqualified(constant)?;
    assert!(rt; !table.quals(bare).constant);
    assert!(rt; table.compatible(bare, row));
    Ok(())
}

// Whether `struct { M x; }` has a const member, where M is an array of const or of plain `int`.
fn has_const(alloc: Global, constant: bool) -> Result<bool, Fail> {
    let mut table = TypeTable::new(alloc)?;
    let int = table.basic(Basic::Int);
    let row = table.array(int, Some(3))?;
    let quals = Quals {
        constant,
        ..Quals::NONE
    };
    let member = table.qualified(row, quals)?;
    let id = table.compound(false)?;
    table.complete(id, &[Name::new(alloc, b"x")?], &[member])?;
    Ok(table.has_const(id))
}

#[test]
fn a_const_member_is_found_in_an_array(rt: HostRuntime) -> Result<(), Fail> {
    assert!(rt; has_const(rt.alloc(), true)?);
    assert!(rt; !has_const(rt.alloc(), false)?);
    Ok(())
}

#[test]
fn versions_of_compatible_types_are_compatible_whatever_their_qualifiers_are(
    rt: HostRuntime,
) -> Result<(), Fail> {
    let mut table = TypeTable::new(rt.alloc())?;
    let int = table.basic(Basic::Int);
    let constant = table.qualified(int, CONST)?;
    let (to_int, to_constant) = (table.pointer(int)?, table.pointer(constant)?);
    assert!(rt; table.compatible_unqualified(int, constant));
    assert!(rt; !table.compatible_unqualified(to_int, to_constant));
    Ok(())
}

#[test]
fn what_the_allocator_of_a_table_makes_outlives_it(rt: HostRuntime) -> Result<(), Fail> {
    let table = TypeTable::new(rt.alloc())?;
    let mut ids = Vec::new(table.alloc());
    ids.push(table.basic(Basic::Int))?;
    drop(table);
    assert_eq!(rt; ids.len(), 1);
    Ok(())
}
