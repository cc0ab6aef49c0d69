//! Each call once, with memory: what is taken, and a structure of many members.

ghost use Rattle.std.specs.Prelude.{◌<◌, All, OnOk, length};
ghost use Rattle.c_types.specs.declared.shape.TypeId.{TypeId};
ghost use Rattle.c_types.specs.Types.{count_of};

use crate::{
    Context, MemberList, NamedType, ParameterList, Setting, array_type, complete, compound_body,
    compound_tag, enumerated_body, enumerated_tag, enumerator, function_type, given_value,
    inline_word, length, parameter_type, pointer_type, qualifiers, restrict, storage_word,
};
use c_scopes::{Binding, TagState};
use c_syntax::{Qualifier, Storage};
use c_types::{Basic, Layout, Shape, TypeId, TypeTable};
use critical_table::{Name, Pos};
use std::test::Fail;

const HERE: Pos = Pos { line: 1, column: 1 };

#[test]
fn derives_types(rt: HostRuntime) -> Result<(), Fail> {
    let mut types = TypeTable::new(rt.alloc())?;
    let int = types.basic(Basic::Int);
    let quals = qualifiers(&[Qualifier::Const, Qualifier::Restrict]);
    let pointer = pointer_type(&mut types, HERE, int, quals)?;
    assert_eq!(rt; types.shape(pointer), Shape::Pointer(int));
    assert!(rt; types.quals(pointer).constant && types.quals(pointer).restricted);
    restrict(&types, HERE, Some(pointer), Qualifier::Restrict)?;
    let three = length(HERE, Ok(3))?;
    let array = array_type(&mut types, HERE, pointer, Some(three))?;
    assert_eq!(rt; types.size_of(array), Some(48));
    let parameter = parameter_type(&mut types, HERE, array)?;
    assert_eq!(rt; types.shape(parameter), Shape::Pointer(pointer));
    let parameters = ParameterList {
        types: vec![in rt.alloc(); parameter]?,
        variadic: true,
        may_vary: true,
    };
    let function = function_type(&mut types, HERE, int, &parameters)?;
    assert!(rt; types.is_variadic(function));
    Ok(())
}

#[test]
fn takes_words_where_they_may_stand(rt: HostRuntime) -> Result<(), Fail> {
    storage_word(Setting::File, false, Storage::Static, HERE)?;
    storage_word(Setting::Parameter, false, Storage::Register, HERE)?;
    let context = Context {
        setting: Setting::File,
        functions: true,
        alone: false,
    };
    inline_word(context, true, HERE)?;
    assert!(rt; storage_word(Setting::For, false, Storage::Static, HERE).is_err());
    Ok(())
}

#[test]
fn declares_tags_and_enumerators(rt: HostRuntime) -> Result<(), Fail> {
    let mut types = TypeTable::new(rt.alloc())?;
    assert_eq!(rt; compound_tag(&types, HERE, true, None)?, None);
    let union = types.compound(true)?;
    let declared = Some(Binding::Tag(union, TagState::Declared));
    assert_eq!(rt; compound_tag(&types, HERE, true, declared)?, Some(union));
    assert_eq!(rt; compound_body(&types, HERE, true, declared)?, Some(union));
    enumerated_body(HERE, None)?;
    let colour = types.enumerated()?;
    let known = Some(Binding::Tag(colour, TagState::Complete));
    assert_eq!(rt; enumerated_tag(&types, HERE, known)?, colour);
    let given = given_value(HERE, Ok(-2_147_483_648))?;
    assert_eq!(rt; enumerator(HERE, None, given)?, -2_147_483_648);
    Ok(())
}

// Gives a structure so many members of that type, and a last one.
fn fill(members: &mut MemberList, types: &TypeTable, of: TypeId, count: u32) -> Result<(), Fail>
    requires there { of.0 < count_of types.now }
    requires members { All (λ (m : TypeId). m.0 < count_of types.now) members.old.types }
    ensures members { OnOk result (All (λ (m : TypeId). m.0 < count_of types.now) members.new.types) }
    ensures some { OnOk result (0 < length members.new.names) }
{
    for number in 0..count {
        let text = format!(in types.alloc(); "m{number}")?;
        let name = Name::new(types.alloc(), text.as_str().as_bytes())?;
        members.push(types, HERE, NamedType { name, of })?;
    }
    let name = Name::new(types.alloc(), b"last")?;
    members.push(types, HERE, NamedType { name, of })?;
    Ok(())
}

#[test]
fn many_members_take_no_long_time(rt: HostRuntime) -> Result<(), Fail> {
    let mut types = TypeTable::new(rt.alloc())?;
    let int = types.basic(Basic::Int);
    let structure = types.compound(false)?;
    let mut members = MemberList::new(rt.alloc());
    fill(&mut members, &types, int, 100_000)?;
    complete(&mut types, HERE, structure, &members)?;
    let layout = Layout {
        size: 400_004,
        align: 4,
    };
    assert_eq!(rt; types.layout(structure), Some(layout));
    Ok(())
}
