//! Type names (6.7.7).

ghost use Rattle.std.specs.Prelude.{◌≡◌, ◌+◌, ◌^◌, ◌≤◌, ◌<◌, ◌++◌, IfOk};
ghost use Rattle.c_parser.specs.Agree.{Gives};
ghost use Rattle.c_syntax.specs.Height.{type_name_height};
ghost use Rattle.c_reading.specs.ReadDeclarator as spec;
ghost use Rattle.c_reading.specs.ReadSpecifier.{parsers};
ghost use Rattle.c_syntax.specs.Scopes.{type_name_adds};
ghost use Rattle.c_syntax.specs.View.{type_name_of};

use crate::fault::Fault;
use crate::make::parameter;
use crate::part::Part;
use crate::read::height::declarator;
use crate::read::specifier::specifiers;
use crate::scope::Scope;
use c_lexer::Token;
use c_reading::declarator_form::DeclaratorForm;
use c_syntax::type_name::TypeName;
use std::alloc::Global;

/// A type name (6.7.7).
#[cycle(reading)]
#[tactic(auto, unfolding(c_reading::specs::ReadDeclarator::type_name_at))]
pub(crate) fn type_name_at<'a>(
    alloc: Global,
    scope: &mut Scope,
    k: usize,
    tokens: &'a [Token],
) -> Result<(Part<TypeName>, &'a [Token]), Fault<'a>>
    requires { k < 2 ^ 32 }
    ensures reads { Gives (λ x. type_name_of x.node.value) (spec.type_name_at k (parsers k) scope.old tokens.now)
        result }
    ensures height { IfOk result (λ x. (x.0.height ≡ type_name_height (type_name_of x.0.node.value))
        × (x.0.height ≤ k + 1)) }
    ensures scope { IfOk result (λ x. scope.new ≡ scope.old ++ type_name_adds (type_name_of x.0.node.value)) }
{
    let (specifiers, rest) = specifiers(alloc, scope, k, tokens)?;
    let (declarator, rest) = declarator(alloc, scope, k, DeclaratorForm::Abstract, rest)?;
    let part = parameter::type_name(alloc, specifiers, declarator)?;
    Ok((part, rest))
}
