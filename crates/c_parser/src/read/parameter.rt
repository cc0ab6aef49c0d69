//! Parameters (6.7.6.3).

ghost use Rattle.std.specs.Prelude.{◌≡◌, ◌+◌, ◌^◌, ◌≤◌, ◌<◌, ◌++◌, IfOk};
ghost use Rattle.c_parser.specs.Agree.{Gives};
ghost use Rattle.c_syntax.specs.Height.{parameter_height};
ghost use Rattle.c_reading.specs.ReadDeclarator as spec;
ghost use Rattle.c_reading.specs.ReadSpecifier.{parsers};
ghost use Rattle.c_syntax.specs.Scopes.{parameter_adds};
ghost use Rattle.c_syntax.specs.View.{parameter_of};

use crate::declared::{declare_own_name, names_types};
use crate::fault::Fault;
use crate::make::parameter;
use crate::part::Part;
use crate::read::height::declarator;
use crate::read::specifier::specifiers;
use crate::scope::Scope;
use c_lexer::Token;
use c_reading::declarator_form::DeclaratorForm;
use c_syntax::declarator::Parameter;
use std::alloc::Global;

/// A parameter declaration (6.7.6.3), whose name is in scope behind it.
#[cycle(reading)]
#[tactic(auto, unfolding(c_reading::specs::ReadDeclarator::parameter_at))]
pub(crate) fn parameter_at<'a>(
    alloc: Global,
    scope: &mut Scope,
    k: usize,
    tokens: &'a [Token],
) -> Result<(Part<Parameter>, &'a [Token]), Fault<'a>>
    requires { k < 2 ^ 32 }
    ensures reads { Gives (λ x. parameter_of x.node.value) (spec.parameter_at k (parsers k) scope.old tokens.now)
        result }
    ensures height { IfOk result (λ x. (x.0.height ≡ parameter_height (parameter_of x.0.node.value))
        × (x.0.height ≤ k + 1)) }
    ensures scope { IfOk result (λ x. scope.new ≡ scope.old ++ parameter_adds (parameter_of x.0.node.value)) }
{
    let (specifiers, rest) = specifiers(alloc, scope, k, tokens)?;
    let (declarator, rest) = declarator(alloc, scope, k, DeclaratorForm::Parameter, rest)?;
    declare_own_name(
        alloc,
        scope,
        names_types(&specifiers.nodes),
        &declarator.node,
    )?;
    let part = parameter::parameter(alloc, specifiers, declarator)?;
    Ok((part, rest))
}
