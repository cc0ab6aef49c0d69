//! Which storage words and `inline` may stand in specifiers.

ghost use Rattle.std.specs.Prelude.{◌≡◌};
ghost use Rattle.c_scopes.specs.Clauses.{Settles};
ghost use Rattle.c_type_rules.specs.Settings as spec;

use crate::context::{Context, Setting};
use c_core::TypeFault;
use c_syntax::Storage;
use critical_table::Pos;

fn is_register(word: Storage) -> bool
    ensures { result ≡ spec.is_register word }
{
    match word {
        Storage::Register => true,
        _ => false,
    }
}

fn is_auto_or_register(word: Storage) -> bool
    ensures { result ≡ spec.is_auto_or_register word }
{
    match word {
        Storage::Auto | Storage::Register => true,
        _ => false,
    }
}

fn is_extern_or_static(word: Storage) -> bool
    ensures { result ≡ spec.is_extern_or_static word }
{
    match word {
        Storage::Extern | Storage::Static => true,
        _ => false,
    }
}

fn may_stand(setting: Setting, word: Storage) -> bool
    ensures { result ≡ spec.may_stand setting word }
{
    match setting {
        Setting::File => !is_auto_or_register(word),
        Setting::Definition => is_extern_or_static(word),
        Setting::Block => true,
        Setting::For => is_auto_or_register(word),
        Setting::Parameter => is_register(word),
        Setting::Member | Setting::TypeName => false,
    }
}

fn is_parameter(setting: Setting) -> bool
    ensures { result ≡ spec.is_parameter setting }
{
    match setting {
        Setting::Parameter => true,
        _ => false,
    }
}

/// A storage word among specifiers; `before` tells that another stands before it (6.7.1, 6.7.6.3p2).
///
/// Constraint 5 where it may not stand there, or is the second; 46 where a parameter has one other than `register`.
pub fn storage_word(
    setting: Setting,
    before: bool,
    word: Storage,
    pos: Pos,
) -> Result<(), TypeFault>
    ensures { Settles (spec.storage_rule setting before word) pos result }
{
    let stands = may_stand(setting, word);
    if is_parameter(setting) {
        if !stands {
            return Err(TypeFault::Constraint(46, pos));
        }
        if before {
            return Err(TypeFault::Constraint(5, pos));
        }
        return Ok(());
    }
    if before || !stands {
        return Err(TypeFault::Constraint(5, pos));
    }
    Ok(())
}

/// `inline` among specifiers; `is_static` tells that `static` stands there too (6.7.4).
///
/// Constraint 13 without `static`, and where not each declarator declares a function.
pub fn inline_word(context: Context, is_static: bool, pos: Pos) -> Result<(), TypeFault>
    ensures { Settles (spec.inline_rule context is_static) pos result }
{
    if is_static && context.functions {
        return Ok(());
    }
    Err(TypeFault::Constraint(13, pos))
}
