//! Labels, names and definitions, with memory.

ghost use Rattle.std.specs.Prelude.{◌≡◌};

use crate::{DefinedNames, Defining, LabelList, assertion, defined_function, jump, main_function};
use acc_num::IntKind;
use c_core::TypeFault;
use c_decl_rules::Visible;
use c_scopes::Binding;
use c_types::{Basic, TypeTable};
use critical_table::{Name, Pos};
use std::test::Fail;

const AT: Pos = Pos { line: 1, column: 5 };

// The number of the constraint that is told; 0 where there is none.
fn told(answer: Result<(), TypeFault>) -> u16 {
    match answer {
        Err(TypeFault::Constraint(number, _)) => number,
        _ => 0,
    }
}

// `case 1: case 257:` in a switch over an `unsigned char`, whose promoted type is `int`, and over a `_Bool`
#[test]
fn a_label_is_converted_to_the_promoted_type(rt: HostRuntime) -> Result<(), Fail> {
    let mut labels = LabelList::new(rt.alloc());
    assert_eq!(rt; told(labels.case(AT, IntKind::I32, Some(1), 0)), 0);
    assert_eq!(rt; told(labels.case(AT, IntKind::I32, Some(257), 1)), 0);
    assert_eq!(rt;
        told(labels.case(AT, IntKind::I32, Some(4_294_967_297), 2)),
        39
    );
    assert_eq!(rt; told(labels.case(AT, IntKind::I32, None, 2)), 39);
    assert_eq!(rt; told(labels.default(AT, 2)), 0);
    assert_eq!(rt; told(labels.default(AT, 3)), 39);
    let (cases, default) = labels.into_parts();
    assert_eq!(rt; cases.len(), 2);
    assert_eq!(rt; default, Some(2));
    Ok(())
}

// 100,000 labels, each with a value of its own, and one more
#[test]
fn many_labels_take_no_long_time(rt: HostRuntime) -> Result<(), Fail> {
    let mut labels = LabelList::new(rt.alloc());
    for i in 0..100_000u32 {
        labels.case(AT, IntKind::U32, Some(i128::from(i) * 7), i)?;
    }
    assert_eq!(rt; told(labels.case(AT, IntKind::U32, Some(699_993), 0)), 39);
    Ok(())
}

#[test]
fn jumps_and_assertions(rt: HostRuntime) -> Result<(), Fail> {
    assert_eq!(rt; told(jump(AT, true)), 0);
    assert_eq!(rt; told(jump(AT, false)), 40);
    assert_eq!(rt; told(assertion(AT, Some(-1))), 0);
    assert_eq!(rt; told(assertion(AT, Some(0))), 15);
    assert_eq!(rt; told(assertion(AT, None)), 15);
    Ok(())
}

const NEW: Visible = Visible {
    binding: None,
    here: false,
};

// `int main(void) {}`, which is used and defined
#[test]
fn a_main_is_defined(rt: HostRuntime) -> Result<(), Fail> {
    let mut types = TypeTable::new(rt.alloc())?;
    let int = types.basic(Basic::Int);
    let of = types.function(int, &[], false)?;
    let definition = Defining {
        storage: None,
        of,
        at: AT,
    };
    let main = defined_function(&mut types, &definition, &NEW)?;
    assert_eq!(rt; told(main_function(&types, AT, Some(main))), 0);
    assert_eq!(rt; told(main_function(&types, AT, None)), 21);
    let mut defined = DefinedNames::new(rt.alloc());
    let name = Name::new(rt.alloc(), b"main")?;
    assert_eq!(rt; told(defined.used_name(&types, AT, main, &name)), 19);
    defined.functions.push(&name)?;
    assert_eq!(rt; told(defined.used_name(&types, AT, main, &name)), 0);
    assert_eq!(rt;
        told(defined.used_name(&types, AT, Binding::Typedef(int), &name)),
        0
    );
    Ok(())
}
