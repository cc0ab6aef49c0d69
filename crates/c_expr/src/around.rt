//! What a declarator and its parts see around them (6.7.6).

ghost use Rattle.std.specs.Prelude.{◌≡◌, ◌&&◌, map};
ghost use Rattle.c_types.specs.Types.{Types};
ghost use Rattle.c_syntax.specs.View.{declarator_of, parameter_of, parameters, value_of};
ghost use Rattle.c_type_parts.specs.Declaring as spec;
ghost use Rattle.c_type_parts.specs.Outlines as outlines;
ghost use Rattle.c_type_parts.specs.Seen.{derived_list};
ghost use Rattle.c_type_parts.specs.Shapes as shape;

use crate::operators::place_of;
use c_syntax::{Declarator, Expr, Parameter};
use c_type_parts::derivations::{Around, Derived};
use c_type_parts::parameters::name_in;
use c_type_rules::{Context, Setting};
use critical_table::Pos;

/// The context of specifiers in a setting that asks no more of them (6.7.2.1, 6.7.6, 6.7.7).
pub fn bare_context(setting: Setting) -> Context
    ensures { result ≡ outlines.bare_context setting }
{
    Context {
        setting,
        functions: false,
        alone: false,
    }
}

/// The place of the declared name; none where it is omitted.
pub fn name_place(declarator: &Declarator) -> Option<Pos>
    ensures { result ≡ shape.place_in (shape.name_in (declarator_of declarator.now)) }
{
    match name_in(declarator) {
        None => None,
        Some(named) => Some(named.pos),
    }
}

/// The place of the declared name, or that of the next node around.
pub fn own_place(declarator: &Declarator, around: Pos) -> Pos
    ensures { result ≡ shape.own_place (declarator_of declarator.now) around }
{
    match name_place(declarator) {
        None => around,
        Some(at) => at,
    }
}

fn is_printf(declarator: &Declarator) -> bool
    ensures { result ≡ spec.is_printf (shape.name_in (declarator_of declarator.now)) }
{
    match name_in(declarator) {
        None => false,
        Some(named) => named.name.bytes() == b"printf".as_slice(),
    }
}

/// What the parts of a declarator see around them: its name, and whether that is of the function with `...`.
pub fn own_around(declarator: &Declarator, around: Around) -> Around
    ensures { result ≡ spec.own_around (declarator_of declarator.now) around }
{
    Around {
        at: own_place(declarator, around.at),
        may_vary: around.may_vary && is_printf(declarator),
    }
}

/// What stands around a declarator that declares no function with `...`.
pub fn no_ellipsis(at: Pos) -> Around
    ensures { result ≡ spec.no_ellipsis at }
{
    Around {
        at,
        may_vary: false,
    }
}

/// One parameter, and no `...` (6.7.6.3p10).
pub fn is_alone(list: &[Parameter], variadic: bool) -> bool
    ensures { result ≡ spec.is_alone (parameters (map parameter_of list.now)) variadic }
{
    if list.len() != 1 {
        return false;
    }
    !variadic
}

/// A function may have `...` where no derivation stands between its name and it.
pub fn may_vary(around: Around, all: &[Derived]) -> bool
    ensures { (types : Types) → result ≡ (around.may_vary && spec.is_first (derived_list types all.now)) }
{
    if !all.is_empty() {
        return false;
    }
    around.may_vary
}

/// The place of an array's length; none where it is left out (6.7.6.2).
pub fn length_place(length: &Option<Box<Expr>>) -> Option<Pos>
    ensures { result ≡ spec.length_place (value_of length.now) }
{
    match length {
        None => None,
        Some(expr) => Some(place_of(expr)),
    }
}
