//! Each call that makes a list, with memory.

use crate::literals::literal_bytes;
use crate::seals::{const_parts, seals};
use c_core::Range;
use c_lexer::Units;
use c_types::{Basic, Quals, TypeTable};
use std::test::Fail;

#[test]
fn a_literal_is_bytes_with_its_null(rt: HostRuntime) -> Result<(), Fail> {
    let alloc = rt.alloc();
    let pieces = vec![in alloc; Units::from_slice(alloc, &[97, -1])?]?;
    let narrow = literal_bytes(alloc, false, &pieces, true)?;
    assert_eq!(rt; narrow.as_slice(), [97, 255, 0].as_slice());
    let wide = literal_bytes(alloc, true, &pieces, false)?;
    assert_eq!(rt;
        wide.as_slice(),
        [97, 0, 0, 0, 255, 255, 255, 255].as_slice()
    );
    Ok(())
}

#[test]
fn a_const_object_is_one_part(rt: HostRuntime) -> Result<(), Fail> {
    let mut types = TypeTable::new(rt.alloc())?;
    let quals = Quals {
        constant: true,
        volatile: false,
        restricted: false,
    };
    let plain = types.basic(Basic::Int);
    let constant = types.qualified(plain, quals)?;
    assert!(rt; const_parts(&types, plain)?.is_empty());
    let parts = seals(&types, constant)?;
    assert_eq!(rt; parts.as_slice(), [Range { at: 0, len: 4 }].as_slice());
    Ok(())
}
