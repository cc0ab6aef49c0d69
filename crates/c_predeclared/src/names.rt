//! The predeclared names of basic types and of their constants.

ghost use Rattle.std.specs.Prelude.{◌++◌, OnOk};
ghost use Rattle.c_scopes.specs.Env.{ScopesIn};
ghost use Rattle.c_predeclared.specs.Binds.{Binds};
ghost use Rattle.c_predeclared.specs.Predeclared as spec;

use crate::binding::{bind_constants, bind_types};
use c_scopes::Scopes;
use c_types::{Basic, TypeTable};
use std::alloc::AllocError;

/// The names of basic types (7.18, 7.19, 7.20.1.1, K.3.2).
const TYPES: [(&str, Basic); 14] = [
    ("size_t", Basic::ULong),
    ("rsize_t", Basic::ULong),
    ("ptrdiff_t", Basic::Long),
    ("wchar_t", Basic::Int),
    ("errno_t", Basic::Int),
    ("bool", Basic::Bool),
    ("int8_t", Basic::SChar),
    ("int16_t", Basic::Short),
    ("int32_t", Basic::Int),
    ("int64_t", Basic::Long),
    ("uint8_t", Basic::UChar),
    ("uint16_t", Basic::UShort),
    ("uint32_t", Basic::UInt),
    ("uint64_t", Basic::ULong),
];

/// The constants of the library (7.18, 7.21.1, 7.22, K.3.4).
const CONSTANTS: [(&str, Basic, i128); 8] = [
    ("EOF", Basic::Int, -1),
    ("true", Basic::Int, 1),
    ("false", Basic::Int, 0),
    ("EXIT_SUCCESS", Basic::Int, 0),
    ("EXIT_FAILURE", Basic::Int, 1),
    ("RSIZE_MAX", Basic::ULong, 16_777_216),
    ("MB_CUR_MAX", Basic::ULong, 1),
    ("CHAR_BIT", Basic::Int, 8),
];

/// The limits of the integer types, each in its promoted type (5.2.4.2.1p1, 7.20.3).
const LIMITS: [(&str, Basic, i128); 18] = [
    ("SCHAR_MIN", Basic::Int, -128),
    ("SCHAR_MAX", Basic::Int, 127),
    ("UCHAR_MAX", Basic::Int, 255),
    ("CHAR_MIN", Basic::Int, -128),
    ("CHAR_MAX", Basic::Int, 127),
    ("SHRT_MIN", Basic::Int, -32_768),
    ("SHRT_MAX", Basic::Int, 32_767),
    ("USHRT_MAX", Basic::Int, 65_535),
    ("INT_MIN", Basic::Int, -2_147_483_648),
    ("INT_MAX", Basic::Int, 2_147_483_647),
    ("UINT_MAX", Basic::UInt, 4_294_967_295),
    ("LONG_MIN", Basic::Long, -9_223_372_036_854_775_808),
    ("LONG_MAX", Basic::Long, 9_223_372_036_854_775_807),
    ("ULONG_MAX", Basic::ULong, 18_446_744_073_709_551_615),
    ("LLONG_MIN", Basic::LongLong, -9_223_372_036_854_775_808),
    ("LLONG_MAX", Basic::LongLong, 9_223_372_036_854_775_807),
    ("ULLONG_MAX", Basic::ULongLong, 18_446_744_073_709_551_615),
    ("SIZE_MAX", Basic::ULong, 18_446_744_073_709_551_615),
];

fn bind_type_names(scopes: &mut Scopes, types: &TypeTable) -> Result<(), AllocError>
    requires { ScopesIn types.now scopes.old }
    ensures { OnOk result (Binds spec.type_names scopes.old types.now scopes.new types.now) }
{
    bind_types(scopes, types, &TYPES)
}

fn bind_constant_names(scopes: &mut Scopes, types: &TypeTable) -> Result<(), AllocError>
    requires { ScopesIn types.now scopes.old }
    ensures { OnOk result (Binds spec.constant_names scopes.old types.now scopes.new types.now) }
{
    bind_constants(scopes, types, &CONSTANTS)
}

fn bind_limits(scopes: &mut Scopes, types: &TypeTable) -> Result<(), AllocError>
    requires { ScopesIn types.now scopes.old }
    ensures { OnOk result (Binds spec.limit_names scopes.old types.now scopes.new types.now) }
{
    bind_constants(scopes, types, &LIMITS)
}

/// The types and constants of basic types.
#[tactic(auto, using(crate::proofs::AddingUp::binds_then))]
pub(crate) fn bind_basic_names(scopes: &mut Scopes, types: &TypeTable) -> Result<(), AllocError>
    requires { ScopesIn types.now scopes.old }
    ensures { OnOk result (Binds (spec.type_names ++ spec.constant_names ++ spec.limit_names) scopes.old types.now
        scopes.new types.now) }
{
    bind_type_names(scopes, types)?;
    bind_constant_names(scopes, types)?;
    bind_limits(scopes, types)?;
    Ok(())
}
