//! String literals that initialize arrays.

ghost use Rattle.std.specs.Prelude.{◌≡◌, ◌++◌, ◌<◌, IfOk, OnOk};
ghost use Rattle.c_types.specs.CType.{type_of};
ghost use Rattle.c_core.specs.Ids.{IdIn};
ghost use Rattle.c_scopes.specs.Clauses.{Settles};
ghost use Rattle.c_initial_rules.specs.Literals as spec;

use c_core::TypeFault;
use c_lexer::Units;
use c_types::{Basic, Shape, TypeId, TypeTable};
use critical_table::Pos;
use std::alloc::{AllocError, Global};

fn is_character_basic(basic: Basic) -> bool
    ensures { result ≡ spec.is_character_basic basic }
{
    match basic {
        Basic::Char | Basic::SChar | Basic::UChar => true,
        _ => false,
    }
}

fn is_character(types: &TypeTable, of: TypeId) -> bool
    requires { IdIn types.now of }
    ensures { result ≡ spec.is_character (type_of types.now of) }
{
    match types.shape(of) {
        Shape::Basic(basic) => is_character_basic(basic),
        Shape::Array(_, _) => false,
        Shape::Pointer(_) => false,
        Shape::Function(_) => false,
        Shape::Compound(_) => false,
        Shape::Enumerated(_) => false,
    }
}

fn suits(types: &TypeTable, wide: bool, element: TypeId) -> bool
    requires { IdIn types.now element }
    ensures { result ≡ spec.suits wide (type_of types.now element) }
{
    if wide {
        types.compatible_unqualified(element, types.basic(Basic::Int))
    } else {
        is_character(types, element)
    }
}

/// The type is an array that a literal of that width may initialize (6.7.9p14, p15).
pub fn suits_array(types: &TypeTable, wide: bool, of: TypeId) -> bool
    requires { IdIn types.now of }
    ensures { result ≡ spec.suits_array wide (type_of types.now of) }
{
    match types.shape(of) {
        Shape::Array(element, _) => suits(types, wide, element),
        Shape::Basic(_) => false,
        Shape::Pointer(_) => false,
        Shape::Function(_) => false,
        Shape::Compound(_) => false,
        Shape::Enumerated(_) => false,
    }
}

/// The length of an array; none of a type that is no array, or whose length was left out.
pub fn length_in(types: &TypeTable, of: TypeId) -> Option<u64>
    requires { IdIn types.now of }
    ensures { result ≡ spec.length_in (type_of types.now of) }
{
    match types.shape(of) {
        Shape::Array(_, length) => length,
        Shape::Basic(_) => None,
        Shape::Pointer(_) => None,
        Shape::Function(_) => None,
        Shape::Compound(_) => None,
        Shape::Enumerated(_) => None,
    }
}

/// Whether the null of a literal of so many units is stored in an array of that length (6.7.9p14, p15).
///
/// Constraint 17 where the array has no room for the units.
pub fn literal_fit(pos: Pos, length: Option<u64>, units: u64) -> Result<bool, TypeFault>
    ensures { Settles (spec.literal_fit_rule length units) pos result }
{
    match length {
        None => Ok(true),
        Some(n) => {
            if n < units {
                return Err(TypeFault::Constraint(17, pos));
            }
            Ok(units < n)
        }
    }
}

// The bytes of a unit behind others: one of a narrow literal, or four, the low one first.
fn push_unit(bytes: &mut Vec<u8>, wide: bool, unit: i64) -> Result<(), AllocError>
    ensures { OnOk result (bytes.new.items ≡ bytes.old.items ++ spec.unit_bytes wide unit) }
{
    if !wide {
        bytes.push(unit.rem_euclid(256) as u8)?;
        return Ok(());
    }
    let number = unit.rem_euclid(1 << 32) as u32;
    bytes.push((number % 256) as u8)?;
    bytes.push((number / 256 % 256) as u8)?;
    bytes.push((number / 65_536 % 256) as u8)?;
    bytes.push((number / 16_777_216 % 256) as u8)?;
    Ok(())
}

fn push_piece(bytes: &mut Vec<u8>, wide: bool, units: &[i64]) -> Result<(), AllocError>
    ensures { OnOk result (bytes.new.items ≡ bytes.old.items ++ spec.piece_bytes wide units.now) }
{
    for unit in units {
        push_unit(bytes, wide, *unit)?;
    }
    Ok(())
}

fn push_pieces(bytes: &mut Vec<u8>, wide: bool, pieces: &[Units]) -> Result<(), AllocError>
    ensures { OnOk result (bytes.new.items ≡ bytes.old.items ++ spec.bytes_of_pieces wide pieces.now) }
{
    for piece in pieces {
        push_piece(bytes, wide, piece.as_slice())?;
    }
    Ok(())
}

/// The bytes of adjacent literals (6.4.5p5, p6), with a null behind them or without.
pub fn literal_bytes(
    alloc: Global,
    wide: bool,
    pieces: &[Units],
    null: bool,
) -> Result<Vec<u8>, AllocError>
    ensures { IfOk result (λ bytes. bytes.items ≡ spec.literal_bytes wide pieces.now null) }
{
    let mut bytes = Vec::new(alloc);
    push_pieces(&mut bytes, wide, pieces)?;
    if null {
        push_unit(&mut bytes, wide, 0)?;
    }
    Ok(bytes)
}
