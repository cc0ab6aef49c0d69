//! Types in words, from the outside in: `array of 3 pointers to function (int) giving const char`.

ghost use Rattle.c_core.specs.Ids.{IdIn};
ghost use Rattle.c_types.specs.Functions.{IsFunction};
ghost use Rattle.c_types.specs.CType.{type_of};

use c_conversions::versions::is_function;
use c_types::{Basic, Quals, Shape, TypeId, TypeTable};
use std::alloc::AllocError;
use std::fmt::Write;

/// A type in words. Structures and unions have the numbers in which they were made, as enumerations have.
pub fn words(types: &TypeTable, id: TypeId) -> Result<String, AllocError>
    requires { IdIn types.now id }
{
    let mut text = String::new(types.alloc());
    describe(types, &mut text, id, false)?;
    Ok(text)
}

// Many tells that the type is that of an array's elements.
#[cycle(words)]
fn describe(types: &TypeTable, text: &mut String, id: TypeId, many: bool) -> Result<(), AllocError>
    requires { IdIn types.now id }
{
    match types.shape(id) {
        Shape::Array(of, length) => {
            array_words(text, length, many)?;
            describe(types, text, of, true)
        }
        Shape::Pointer(to) => {
            pointer_words(text, types.quals(id), many)?;
            describe(types, text, to, false)
        }
        Shape::Function(_) => function_words(types, text, id),
        Shape::Basic(basic) => {
            qualifiers(text, types.quals(id))?;
            text.push_str(basic_words(basic))
        }
        Shape::Compound(number) => numbered_words(text, types.quals(id), "compound", number),
        Shape::Enumerated(number) => numbered_words(text, types.quals(id), "enumeration", number),
    }
}

#[cycle(words)]
fn function_words(types: &TypeTable, text: &mut String, id: TypeId) -> Result<(), AllocError>
    requires { IdIn types.now id }
{
    if !is_function(types, id) {
        return Ok(());
    }
    text.push_str("function (")?;
    parameter_words(types, text, id)?;
    if types.is_variadic(id) {
        text.push_str(", ...")?;
    }
    text.push_str(") giving ")?;
    describe(types, text, types.gives(id), false)
}

#[cycle(words)]
fn parameter_words(types: &TypeTable, text: &mut String, id: TypeId) -> Result<(), AllocError>
    requires is_in { IdIn types.now id }
    requires function { IsFunction (type_of types.now id) }
{
    for (index, parameter) in types.parameters(id).iter().enumerate() {
        if index > 0 {
            text.push_str(", ")?;
        }
        describe(types, text, *parameter, false)?;
    }
    Ok(())
}

fn array_words(text: &mut String, length: Option<u64>, many: bool) -> Result<(), AllocError> {
    text.push_str(if many { "arrays of " } else { "array of " })?;
    if let Some(n) = length {
        write!(text, "{n} ")?;
    }
    Ok(())
}

fn pointer_words(text: &mut String, quals: Quals, many: bool) -> Result<(), AllocError> {
    qualifiers(text, quals)?;
    text.push_str(if many { "pointers to " } else { "pointer to " })
}

fn numbered_words(
    text: &mut String,
    quals: Quals,
    word: &str,
    number: u64,
) -> Result<(), AllocError> {
    qualifiers(text, quals)?;
    write!(text, "{word} {number}")
}

fn qualifiers(text: &mut String, quals: Quals) -> Result<(), AllocError> {
    if quals.constant {
        text.push_str("const ")?;
    }
    if quals.volatile {
        text.push_str("volatile ")?;
    }
    if quals.restricted {
        text.push_str("restrict ")?;
    }
    Ok(())
}

fn basic_words(basic: Basic) -> &'static str {
    match basic {
        Basic::Void => "void",
        Basic::Bool => "_Bool",
        Basic::Char => "char",
        Basic::SChar => "signed char",
        Basic::UChar => "unsigned char",
        Basic::Short => "short",
        Basic::UShort => "unsigned short",
        Basic::Int => "int",
        Basic::UInt => "unsigned int",
        Basic::Long => "long",
        Basic::ULong => "unsigned long",
        Basic::LongLong => "long long",
        Basic::ULongLong => "unsigned long long",
    }
}
