//! Layouts as gcc 12.2 on x86-64 gives them (`oracles/layouts.c`), where a structure of 16 bytes stands for a pointer.

ghost use Rattle.std.specs.Prelude.{◌≡◌, ◌<◌, ◌≤◌, IfOk, slice_set};
ghost use Rattle.c_types.specs.Types.{count_of};
ghost use Rattle.c_types.specs.CType.{type_of};
ghost use Rattle.c_types.specs.Structures.{Structure, IsIncomplete, structures_of};
ghost use Rattle.c_types.specs.Making.{KeepsTypes};
ghost use Rattle.c_types.specs.Compounds.{number_in};

use crate::{Basic, BuildFault, LayoutFault, TypeId, TypeTable};
use critical_table::Name;
use std::alloc::Global;
use std::test::Fail;

// The type of a member.
#[derive(Clone, Copy, Debug)]
enum Part {
    Of(Basic),
    Pointer,
    Array(Basic, u64),
    // struct { long x; char y; int z; }
    Structure,
    // union { char x; int y; long z; }
    Union,
}

// The size, the alignment and the places of a structure or union that gets three members.
fn complete_with(
    table: &mut TypeTable,
    alloc: Global,
    id: TypeId,
    types: (TypeId, TypeId, TypeId),
) -> Result<[Option<u32>; 5], Fail>
    requires id { id.0 < count_of table.old }
    requires incomplete { IsIncomplete (type_of table.old id) (structures_of table.old) }
    requires x { types.0.0 < count_of table.old }
    requires y { types.1.0 < count_of table.old }
    requires z { types.2.0 < count_of table.old }
    ensures types { IfOk result (λ _. KeepsTypes table.old table.new) }
    ensures structures { IfOk result (λ _. (s : Structure) × (structures_of table.new
        ≡ slice_set (structures_of table.old) (number_in (type_of table.old id)) s)) }
{
    let names = [
        Name::new(alloc, b"x")?,
        Name::new(alloc, b"y")?,
        Name::new(alloc, b"z")?,
    ];
    table.complete(id, &names, &[types.0, types.1, types.2])?;
    Ok([
        table.size_of(id),
        table.align_of(id),
        place(table, id, &names[0]),
        place(table, id, &names[1]),
        place(table, id, &names[2]),
    ])
}

fn place(table: &TypeTable, id: TypeId, name: &Name) -> Option<u32>
    requires { id.0 < count_of table.now }
{
    Some(table.member(id, name)?.1)
}

// The same of a new structure or union.
fn lay_out(
    table: &mut TypeTable,
    alloc: Global,
    is_union: bool,
    types: (TypeId, TypeId, TypeId),
) -> Result<(TypeId, [Option<u32>; 5]), Fail>
    requires x { types.0.0 < count_of table.old }
    requires y { types.1.0 < count_of table.old }
    requires z { types.2.0 < count_of table.old }
    ensures there { IfOk result (λ r. r.0.0 < count_of table.new) }
    ensures count { IfOk result (λ _. count_of table.old ≤ count_of table.new) }
{
    let id = table.compound(is_union)?;
    let lines = complete_with(table, alloc, id, types)?;
    Ok((id, lines))
}

fn of_basics(
    table: &mut TypeTable,
    alloc: Global,
    is_union: bool,
    types: (Basic, Basic, Basic),
) -> Result<TypeId, Fail>
    ensures there { IfOk result (λ id. id.0 < count_of table.new) }
    ensures count { IfOk result (λ _. count_of table.old ≤ count_of table.new) }
{
    let ids = (
        table.basic(types.0),
        table.basic(types.1),
        table.basic(types.2),
    );
    let (id, _) = lay_out(table, alloc, is_union, ids)?;
    Ok(id)
}

fn part_type(table: &mut TypeTable, alloc: Global, part: Part) -> Result<TypeId, Fail>
    ensures there { IfOk result (λ id. id.0 < count_of table.new) }
    ensures count { IfOk result (λ _. count_of table.old ≤ count_of table.new) }
{
    match part {
        Part::Of(basic) => Ok(table.basic(basic)),
        Part::Pointer => {
            let char = table.basic(Basic::Char);
            Ok(table.pointer(char)?)
        }
        Part::Array(of, length) => {
            let element = table.basic(of);
            Ok(table.array(element, Some(length.max(1)))?)
        }
        Part::Structure => of_basics(table, alloc, false, (Basic::Long, Basic::Char, Basic::Int)),
        Part::Union => of_basics(table, alloc, true, (Basic::Char, Basic::Int, Basic::Long)),
    }
}

// The size, the alignment and the places of a structure or union of such members.
fn lines_of(alloc: Global, is_union: bool, parts: [Part; 3]) -> Result<[Option<u32>; 5], Fail> {
    let mut table = TypeTable::new(alloc)?;
    let x = part_type(&mut table, alloc, parts[0])?;
    let y = part_type(&mut table, alloc, parts[1])?;
    let z = part_type(&mut table, alloc, parts[2])?;
    let (_, lines) = lay_out(&mut table, alloc, is_union, (x, y, z))?;
    Ok(lines)
}

#[test]
fn lays_out_like_gcc(rt: HostRuntime) -> Result<(), Fail> {
    let (char, short) = (Part::Of(Basic::Char), Part::Of(Basic::Short));
    let (int, long) = (Part::Of(Basic::Int), Part::Of(Basic::Long));
    let three = Part::Array(Basic::Char, 3);
    let five = Part::Array(Basic::Int, 5);
    let rows = [
        (false, [char, int, Part::Pointer], [24, 8, 0, 4, 8]),
        (false, [char, char, char], [3, 1, 0, 1, 2]),
        (false, [char, short, char], [6, 2, 0, 2, 4]),
        (false, [long, char, int], [16, 8, 0, 8, 12]),
        (false, [char, long, char], [24, 8, 0, 8, 16]),
        (false, [Part::Pointer, char, short], [24, 8, 0, 16, 18]),
        (true, [char, int, long], [8, 8, 0, 0, 0]),
        (false, [char, Part::Structure, short], [32, 8, 0, 8, 24]),
        (false, [char, Part::Union, char], [24, 8, 0, 8, 16]),
        (false, [three, int, char], [12, 4, 0, 4, 8]),
        (false, [short, five, char], [28, 4, 0, 4, 24]),
        (true, [three, short, char], [4, 2, 0, 0, 0]),
        (true, [Part::Pointer, five, char], [24, 8, 0, 0, 0]),
    ];
    for (is_union, parts, expected) in rows {
        let lines = lines_of(rt.alloc(), is_union, parts)?;
        assert_eq!(rt; lines, expected.map(Some));
    }
    Ok(())
}

// struct node { struct node *x; int y; struct node *z; };
fn refers_to_itself(
    table: &mut TypeTable,
    alloc: Global,
    int: TypeId,
) -> Result<[Option<u32>; 5], Fail>
    requires { int.0 < count_of table.old }
    ensures { IfOk result (λ _. count_of table.old ≤ count_of table.new) }
{
    let node = table.compound(false)?;
    let to_node = table.pointer(node)?;
    complete_with(table, alloc, node, (to_node, int, to_node))
}

// struct left { struct right *x; int y; struct left *z; }; struct right { struct left x; int y; struct right *z; };
fn refer_to_each_other(
    table: &mut TypeTable,
    alloc: Global,
    int: TypeId,
) -> Result<[[Option<u32>; 5]; 2], Fail>
    requires { int.0 < count_of table.old }
{
    let right = table.compound(false)?;
    let to_right = table.pointer(right)?;
    let left = table.compound(false)?;
    let to_left = table.pointer(left)?;
    let first = complete_with(table, alloc, left, (to_right, int, to_left))?;
    let second = complete_with(table, alloc, right, (left, int, to_right))?;
    Ok([first, second])
}

#[test]
fn lays_out_structures_that_refer_to_themselves_and_each_other(
    rt: HostRuntime,
) -> Result<(), Fail> {
    let mut table = TypeTable::new(rt.alloc())?;
    let int = table.basic(Basic::Int);
    let node = refers_to_itself(&mut table, rt.alloc(), int)?;
    assert_eq!(rt; node, [Some(40), Some(8), Some(0), Some(16), Some(24)]);
    let [left, right] = refer_to_each_other(&mut table, rt.alloc(), int)?;
    assert_eq!(rt; left, [Some(40), Some(8), Some(0), Some(16), Some(24)]);
    assert_eq!(rt; right, [Some(64), Some(8), Some(0), Some(40), Some(48)]);
    Ok(())
}

#[test]
fn takes_the_largest_array_and_no_larger(rt: HostRuntime) -> Result<(), Fail> {
    let mut table = TypeTable::new(rt.alloc())?;
    let char = table.basic(Basic::Char);
    let largest = table.array(char, Some(16_777_216))?;
    assert_eq!(rt; table.size_of(largest), Some(16_777_216));
    let more = table.array(char, Some(16_777_217));
    assert!(rt; matches!(more, Err(BuildFault::Layout(LayoutFault::TooLarge))));
    let void = table.basic(Basic::Void);
    let none = table.array(void, Some(1));
    assert!(rt; matches!(none, Err(BuildFault::Layout(LayoutFault::Incomplete))));
    Ok(())
}
