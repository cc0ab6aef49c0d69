//! Compatible and composite types of arrays, pointers and functions.

ghost use Rattle.std.specs.Prelude.{◌<◌, ◌≤◌, IfSome, IfOk};
ghost use Rattle.c_types.specs.Types.{count_of};

use crate::{Basic, Shape, TypeId, TypeTable};
use std::alloc::Global;
use std::test::Fail;

// What stands around an array of `char`.
#[derive(Clone, Copy, Debug)]
enum Around {
    Nothing,
    Pointer,
    Parameter,
}

// An array of `char` of that length, a pointer to it, or a function that takes such a pointer.
fn array_type(table: &mut TypeTable, around: Around, length: Option<u64>) -> Result<TypeId, Fail>
    requires { IfSome length (λ n. 0 < n) }
    ensures there { IfOk result (λ id. id.0 < count_of table.new) }
    ensures count { IfOk result (λ _. count_of table.old ≤ count_of table.new) }
{
    let char = table.basic(Basic::Char);
    let array = table.array(char, length)?;
    if matches!(around, Around::Nothing) {
        return Ok(array);
    }
    let pointer = table.pointer(array)?;
    if matches!(around, Around::Pointer) {
        return Ok(pointer);
    }
    Ok(table.function(pointer, &[pointer], false)?)
}

// The length of the array in a type that `array_type` made.
fn size_in(table: &TypeTable, id: TypeId) -> Option<u32>
    requires { id.0 < count_of table.now }
{
    match table.shape(id) {
        Shape::Pointer(to) => table.size_of(to),
        Shape::Function(_) => {
            let parameters = table.parameters(id);
            if parameters.is_empty() {
                return None;
            }
            match table.shape(parameters[0]) {
                Shape::Pointer(to) => table.size_of(to),
                _ => None,
            }
        }
        _ => table.size_of(id),
    }
}

// The length in the composite of two such types.
fn composite_size(
    alloc: Global,
    around: Around,
    left: Option<u64>,
    right: Option<u64>,
) -> Result<Option<u32>, Fail>
    requires left { IfSome left (λ n. 0 < n) }
    requires right { IfSome right (λ n. 0 < n) }
{
    let mut table = TypeTable::new(alloc)?;
    let a = array_type(&mut table, around, left)?;
    let b = array_type(&mut table, around, right)?;
    if !table.compatible(a, b) {
        return Ok(None);
    }
    let id = table.composite(a, b)?;
    Ok(size_in(&table, id))
}

#[test]
fn composes_the_length_that_either_gives(rt: HostRuntime) -> Result<(), Fail> {
    for around in [Around::Nothing, Around::Pointer, Around::Parameter] {
        assert_eq!(rt; composite_size(rt.alloc(), around, None, Some(3))?, Some(3));
        assert_eq!(rt; composite_size(rt.alloc(), around, Some(3), None)?, Some(3));
        assert_eq!(rt; composite_size(rt.alloc(), around, None, None)?, None);
    }
    Ok(())
}
