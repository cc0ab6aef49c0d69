//! The types of library functions, by their prototypes.

ghost use Rattle.std.specs.Prelude.{IfOk};
ghost use Rattle.c_types.specs.CType.{type_of, void};
ghost use Rattle.c_core.specs.Ids.{IdIn};
ghost use Rattle.c_scopes.specs.Clauses.{Makes};
ghost use Rattle.library_types.specs.LibraryTypes.{const_char, to};
ghost use Rattle.c_predeclared.specs.Predeclared.{basic_type};
ghost use Rattle.c_predeclared.specs.Prototypes as spec;

use c_conversions::value::{pointer_to, qualified};
use c_types::{Basic, Quals, TypeId, TypeTable};
use std::alloc::AllocError;

/// A type in a prototype.
#[derive(Clone, Copy)]
pub(crate) enum Part {
    Void,
    /// `int`, `errno_t`
    Int,
    /// `const char *`
    Text,
    /// `void *`
    Object,
}

// `const char *`
fn text_pointer(types: &mut TypeTable) -> Result<TypeId, AllocError>
    ensures { IfOk result (Makes type_of IdIn (to const_char) types.old types.new) }
{
    let constant = Quals {
        constant: true,
        volatile: false,
        restricted: false,
    };
    let text = qualified(types, types.basic(Basic::Char), constant)?;
    let pointer = pointer_to(types, text)?;
    Ok(pointer)
}

// `void *`
pub(crate) fn object_pointer(types: &mut TypeTable) -> Result<TypeId, AllocError>
    ensures { IfOk result (Makes type_of IdIn (to void) types.old types.new) }
{
    let void = types.basic(Basic::Void);
    let pointer = pointer_to(types, void)?;
    Ok(pointer)
}

// A basic type.
#[tactic(auto, using(c_scopes::proofs::Keeps::keeps_own))]
fn basic_type(types: &TypeTable, basic: Basic) -> TypeId
    ensures { Makes type_of IdIn (basic_type basic) types.now types.now result }
{
    types.basic(basic)
}

fn part_type(types: &mut TypeTable, part: Part) -> Result<TypeId, AllocError>
    ensures { IfOk result (Makes type_of IdIn (spec.part_type part) types.old types.new) }
{
    match part {
        Part::Void => Ok(basic_type(types, Basic::Void)),
        Part::Int => Ok(basic_type(types, Basic::Int)),
        Part::Text => {
            let text = text_pointer(types)?;
            Ok(text)
        }
        Part::Object => {
            let object = object_pointer(types)?;
            Ok(object)
        }
    }
}

// The types of parameters, in order.
fn part_types(types: &mut TypeTable, parts: &[Part]) -> Result<Vec<TypeId>, AllocError>
    ensures { IfOk result (λ made. spec.MakesParts parts.now types.old types.new made.items) }
{
    let mut made = Vec::new(types.alloc());
    for part in parts {
        let of = part_type(types, *part)?;
        made.push(of)?;
    }
    Ok(made)
}

/// The type of a function without an ellipsis, by what it gives and its parameters.
pub(crate) fn prototype_type(
    types: &mut TypeTable,
    gives: Part,
    parameters: &[Part],
) -> Result<TypeId, AllocError>
    ensures { IfOk result (Makes type_of IdIn (spec.prototype_type gives parameters.now) types.old types.new) }
{
    let parameters = part_types(types, parameters)?;
    let gives = part_type(types, gives)?;
    let function = types.function(gives, &parameters, false)?;
    Ok(function)
}
