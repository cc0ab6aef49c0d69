//! Tests of the common types of integers, and of each conversion once, with memory.
ghost use Rattle.std.specs.Prelude.{◌<◌};
ghost use Rattle.c_types.specs.Types.{Types, count_of};
ghost use Rattle.c_conversions.specs.Parts.{PartIn};

use crate::converting::{assigned, converts, discarded, passed};
use crate::kind::common;
use crate::operand::{Category, Operand};
use crate::value::{as_value, composite, own_unqualified};
use c_core::{CoreExpr, CoreNode, ObjectName};
use c_types::{Basic, Quals, TypeId, TypeTable};
use critical_table::Pos;
use std::test::Fail;

const TYPES: [Basic; 12] = [
    Basic::Bool,
    Basic::Char,
    Basic::SChar,
    Basic::UChar,
    Basic::Short,
    Basic::UShort,
    Basic::Int,
    Basic::UInt,
    Basic::Long,
    Basic::ULong,
    Basic::LongLong,
    Basic::ULongLong,
];

// What gcc 12.2 and clang 14.0 on x86-64 have as the type of a sum (oracles/common_types.py): a row for each left
// operand, a letter for each right one.
static COMMON: [&str; 12] = [
    "iiiiiiiulmxy",
    "iiiiiiiulmxy",
    "iiiiiiiulmxy",
    "iiiiiiiulmxy",
    "iiiiiiiulmxy",
    "iiiiiiiulmxy",
    "iiiiiiiulmxy",
    "uuuuuuuulmxy",
    "lllllllllmxy",
    "mmmmmmmmmmyy",
    "xxxxxxxxxyxy",
    "yyyyyyyyyyyy",
];

fn letter(basic: Basic) -> char {
    match basic {
        Basic::Int => 'i',
        Basic::UInt => 'u',
        Basic::Long => 'l',
        Basic::ULong => 'm',
        Basic::LongLong => 'x',
        Basic::ULongLong => 'y',
        _ => '?',
    }
}

#[test]
fn common_types_are_those_of_gcc_and_clang(rt: HostRuntime) -> Result<(), Fail> {
    for i in 0..12 {
        let mut letters = COMMON[i].chars();
        for right in TYPES {
            assert_eq!(rt; letters.next(), Some(letter(common(TYPES[i], right))));
        }
    }
    Ok(())
}

const PLACE: Pos = Pos { line: 1, column: 1 };

fn object(of: TypeId) -> Operand
    ensures { (types : Types) → of.0 < count_of types → PartIn types result }
{
    Operand {
        category: Category::Lvalue(false),
        null: false,
        core: CoreExpr {
            of,
            pos: PLACE,
            node: CoreNode::Object(ObjectName::Slot(0)),
        },
    }
}

#[test]
fn an_array_becomes_a_pointer_that_it_bounds(rt: HostRuntime) -> Result<(), Fail> {
    let mut types = TypeTable::new(rt.alloc())?;
    let int = types.basic(Basic::Int);
    let row = types.array(int, Some(3))?;
    let element = as_value(&mut types, object(row))?;
    assert!(rt; matches!(element.core.node, CoreNode::Narrow(12, _)));
    Ok(())
}

#[test]
fn a_truth_value_is_stored_as_an_int_and_discarded(rt: HostRuntime) -> Result<(), Fail> {
    let mut types = TypeTable::new(rt.alloc())?;
    let int = types.basic(Basic::Int);
    let truth = types.basic(Basic::Bool);
    let held = as_value(&mut types, object(truth))?;
    assert!(rt; converts(&types, int, &held));
    let stored = assigned(&mut types, int, held)?;
    assert!(rt; matches!(stored.node, CoreNode::Convert(_, _)));
    let nothing = discarded(&types, stored)?;
    assert!(rt; matches!(nothing.node, CoreNode::Discard(_)));
    Ok(())
}

#[test]
fn a_truth_value_is_passed_as_an_int(rt: HostRuntime) -> Result<(), Fail> {
    let mut types = TypeTable::new(rt.alloc())?;
    let int = types.basic(Basic::Int);
    let truth = types.basic(Basic::Bool);
    let held = as_value(&mut types, object(truth))?;
    let argument = passed(&mut types, int, held)?;
    assert!(rt; matches!(argument.node, CoreNode::Convert(_, _)));
    Ok(())
}

#[test]
fn a_composite_type_is_made_without_own_qualifiers(rt: HostRuntime) -> Result<(), Fail> {
    let mut types = TypeTable::new(rt.alloc())?;
    let int = types.basic(Basic::Int);
    let quals = Quals {
        constant: true,
        ..Quals::NONE
    };
    let constant = types.qualified(int, quals)?;
    let bare = own_unqualified(&mut types, constant)?;
    if !types.compatible(bare, int) {
        return Err("compatible types expected".into());
    }
    let made = composite(&mut types, bare, int)?;
    assert!(rt; !types.quals(made).constant);
    Ok(())
}
