//! Each call once, with memory.

use crate::completing::{compound_place, end_body};
use crate::derivations::{Derivation, DerivationSite, derived_type, with_derived};
use crate::tagging::begun_compound;
use crate::{TagUse, tagged_body, tagged_compound, tagged_enumeration, tagged_enumerators};
use c_core::TypeFault;
use c_scopes::Scopes;
use c_syntax::Tag;
use c_type_rules::{EndedBody, MemberList};
use c_types::{Basic, TypeTable};
use critical_table::{Name, Pos};
use std::test::Fail;

#[test]
fn tags_are_declared_and_found(rt: HostRuntime) -> Result<(), Fail> {
    let alloc = rt.alloc();
    let mut types = TypeTable::new(alloc)?;
    let mut scopes = Scopes::new(alloc)?;
    let kind = TagUse {
        is_union: false,
        alone: false,
    };
    let tag = Tag {
        pos: Pos { line: 1, column: 8 },
        name: Name::new(alloc, b"s")?,
    };
    let declared = tagged_compound(&mut scopes, &mut types, kind, &tag)?;
    let found = tagged_compound(&mut scopes, &mut types, kind, &tag)?;
    assert_eq!(rt; found, declared);
    let begun = tagged_body(&mut scopes, &mut types, false, &tag)?;
    assert_eq!(rt; begun, declared);
    let other = Tag {
        pos: Pos { line: 2, column: 6 },
        name: Name::new(alloc, b"e")?,
    };
    let _enumeration = tagged_enumerators(&mut scopes, &mut types, &other)?;
    match tagged_enumeration(&scopes, &types, &other) {
        Err(TypeFault::Constraint(number, at)) => {
            assert_eq!(rt; number, 7);
            assert_eq!(rt; at, Pos { line: 2, column: 6 });
        }
        _ => assert!(rt; false),
    }
    Ok(())
}

#[test]
fn a_body_has_a_member(rt: HostRuntime) -> Result<(), Fail> {
    let alloc = rt.alloc();
    let mut types = TypeTable::new(alloc)?;
    let mut scopes = Scopes::new(alloc)?;
    let tag = Some(Tag {
        pos: Pos { line: 1, column: 8 },
        name: Name::new(alloc, b"s")?,
    });
    let of = begun_compound(&mut scopes, &mut types, false, &tag)?;
    let body = EndedBody {
        at: compound_place(Pos { line: 1, column: 1 }, &tag),
        is_union: false,
        of,
    };
    match end_body(&scopes, &mut types, body, &MemberList::new(alloc)) {
        Err(TypeFault::Constraint(number, at)) => {
            assert_eq!(rt; number, 1);
            assert_eq!(rt; at, Pos { line: 1, column: 8 });
        }
        _ => assert!(rt; false),
    }
    Ok(())
}

#[test]
fn derivations_make_a_type(rt: HostRuntime) -> Result<(), Fail> {
    let alloc = rt.alloc();
    let mut types = TypeTable::new(alloc)?;
    let all = with_derived(Vec::new(alloc), Derivation::Array(Some(3)), None)?;
    let site = DerivationSite {
        name_at: None,
        around: Pos { line: 1, column: 1 },
    };
    let int = types.basic(Basic::Int);
    let _made = derived_type(&mut types, site, int, all.as_slice())?;
    Ok(())
}
