//! Tests of what no clause says: each call once, with memory, and how long hostile names take.

use crate::{Binding, Scopes, TagState};
use c_types::{Basic, TypeId, TypeTable};
use critical_table::Name;
use std::alloc::Global;
use std::test::Fail;

// The type of a typedef name, or of a tag.
fn type_of(binding: Option<&Binding>) -> Option<TypeId> {
    match binding {
        Some(Binding::Typedef(of)) => Some(*of),
        Some(Binding::Tag(of, _)) => Some(*of),
        _ => None,
    }
}

#[test]
fn names_hide_those_further_out_in_their_name_space(rt: HostRuntime) -> Result<(), Fail> {
    let alloc = rt.alloc();
    let types = TypeTable::new(alloc)?;
    let (int, char) = (types.basic(Basic::Int), types.basic(Basic::Char));
    let name = Name::new(alloc, b"s")?;
    let mut scopes = Scopes::new(alloc)?;
    scopes.bind(Name::new(alloc, b"s")?, Binding::Typedef(int))?;
    assert_eq!(rt; type_of(scopes.find(&name, false)), Some(int));
    assert_eq!(rt; type_of(scopes.find(&name, true)), None);
    scopes.enter()?;
    assert_eq!(rt; type_of(scopes.here(&name, false)), None);
    scopes.bind(Name::new(alloc, b"s")?, Binding::Tag(char, TagState::Begun))?;
    assert_eq!(rt; type_of(scopes.find(&name, true)), Some(char));
    assert_eq!(rt; type_of(scopes.find(&name, false)), Some(int));
    scopes.bind(Name::new(alloc, b"s")?, Binding::Typedef(char))?;
    assert_eq!(rt; type_of(scopes.find(&name, false)), Some(char));
    scopes.leave();
    assert_eq!(rt; type_of(scopes.find(&name, false)), Some(int));
    assert_eq!(rt; type_of(scopes.here(&name, true)), None);
    Ok(())
}

// A name that differs from the others late.
fn late_name(alloc: Global, number: u32) -> Result<Name, Fail> {
    let text = format!(in alloc; "a_name_that_begins_as_all_the_others_do_{number}")?;
    Ok(Name::new(alloc, text.as_str().as_bytes())?)
}

#[test]
fn hostile_names_are_found_in_the_time_of_others(rt: HostRuntime) -> Result<(), Fail> {
    let alloc = rt.alloc();
    let types = TypeTable::new(alloc)?;
    let int = types.basic(Basic::Int);
    let mut scopes = Scopes::new(alloc)?;
    for number in 0..100_000u32 {
        scopes.bind(late_name(alloc, number)?, Binding::Typedef(int))?;
    }
    for _depth in 0..200u32 {
        scopes.enter()?;
    }
    let mut found = 0u32;
    for number in 0..100_000u32 {
        if scopes.find(&late_name(alloc, number)?, false).is_some() {
            found = found.saturating_add(1);
        }
    }
    assert_eq!(rt; found, 100_000);
    Ok(())
}
