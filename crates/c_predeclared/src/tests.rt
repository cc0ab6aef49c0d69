//! The one call, with memory.

use crate::predeclared;
use c_scopes::Binding;
use c_types::TypeTable;
use critical_table::Name;
use std::test::Fail;

fn constant_value(binding: Option<&Binding>) -> Option<i128> {
    match binding {
        Some(Binding::Constant(_, value)) => Some(*value),
        _ => None,
    }
}

#[test]
fn a_type_and_a_constant_are_found(rt: HostRuntime) -> Result<(), Fail> {
    let alloc = rt.alloc();
    let mut types = TypeTable::new(alloc)?;
    let scopes = predeclared(alloc, &mut types)?;
    let size = Name::new(alloc, b"size_t")?;
    assert!(rt; scopes.here(&size, false).is_some());
    let greatest = Name::new(alloc, b"INT_MAX")?;
    let binding = scopes.here(&greatest, false);
    assert_eq!(rt; constant_value(binding), Some(2_147_483_647));
    Ok(())
}
