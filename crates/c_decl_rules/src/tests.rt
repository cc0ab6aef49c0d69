//! Each kind of name once, with memory.

ghost use Rattle.std.specs.Prelude.{◌≡◌};

use crate::{Declaring, Manner, Visible, declare_name};
use c_scopes::{Binding, Standing};
use c_syntax::Storage;
use c_type_rules::Setting;
use c_types::{Basic, TypeId, TypeTable};
use critical_table::Pos;
use std::test::Fail;

// A name of that type in the file scope.
fn declaring(of: TypeId, storage: Option<Storage>) -> Declaring
    ensures { result.of ≡ of }
{
    Declaring {
        manner: Manner {
            setting: Setting::File,
            storage,
            initialized: false,
        },
        of,
        at: Pos { line: 1, column: 1 },
        slot: 0,
    }
}

const NEW: Visible = Visible {
    binding: None,
    here: false,
};

// The type of what is declared.
fn type_of(binding: Binding) -> Option<TypeId> {
    match binding {
        Binding::Function(of, _) | Binding::Typedef(of) => Some(of),
        _ => None,
    }
}

// `extern int a[]; int a[3];`
#[test]
fn an_array_gets_its_length_behind_its_first_declaration(rt: HostRuntime) -> Result<(), Fail> {
    let mut types = TypeTable::new(rt.alloc())?;
    let int = types.basic(Basic::Int);
    let open = types.array(int, None)?;
    let three = types.array(int, Some(3))?;
    let first = declare_name(&mut types, &declaring(open, Some(Storage::Extern)), &NEW)?;
    let seen = Visible {
        binding: Some(first),
        here: true,
    };
    let second = declare_name(&mut types, &declaring(three, None), &seen)?;
    match second {
        Binding::Object(of, object) => {
            assert_eq!(rt; types.size_of(of), Some(12));
            assert_eq!(rt; object.standing, Standing::Tentative);
        }
        _ => assert!(rt; false),
    }
    Ok(())
}

// `int f(void); typedef int t;`
#[test]
fn functions_and_typedef_names_are_declared(rt: HostRuntime) -> Result<(), Fail> {
    let mut types = TypeTable::new(rt.alloc())?;
    let int = types.basic(Basic::Int);
    let function = types.function(int, &[], false)?;
    let declared = declare_name(&mut types, &declaring(function, None), &NEW)?;
    assert_eq!(rt; type_of(declared), Some(function));
    let renamed = declaring(int, Some(Storage::Typedef));
    let typedef = declare_name(&mut types, &renamed, &NEW)?;
    assert_eq!(rt; type_of(typedef), Some(int));
    Ok(())
}
