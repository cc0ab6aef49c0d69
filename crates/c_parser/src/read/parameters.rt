//! Parameter lists (6.7.6.3).

ghost use Rattle.std.specs.Prelude.{◌≡◌, map, ◌^◌, ◌≤◌, ◌<◌, ◌++◌, IfOk};
ghost use Rattle.c_parser.specs.Agree.{Gives};
ghost use Rattle.c_syntax.specs.Height.{parameters_height};
ghost use Rattle.c_reading.specs.ReadDeclarator as spec;
ghost use Rattle.c_reading.specs.ReadSpecifier.{parsers};
ghost use Rattle.c_syntax.specs.Scopes.{parameters_add};
ghost use Rattle.c_syntax.specs.View.{parameter_of, parameters};

use crate::fault::Fault;
use crate::next::{expect, is_mark, tail};
use crate::part::Parts;
use crate::read::height::parameter;
use crate::scope::Scope;
use c_lexer::{Body, Punct, Token};
use c_syntax::declarator::Parameter;
use std::alloc::Global;

/// Parameters, and whether `, ...` ends them.
#[derive(Drop)]
pub(crate) struct ParameterList {
    pub all: Parts<Parameter>,
    pub variadic: bool,
}

/// Behind the opening parenthesis.
#[cycle(reading)]
#[tactic(auto, unfolding(c_reading::specs::ReadDeclarator::parameters_at))]
pub(crate) fn parameters_at<'a>(
    alloc: Global,
    scope: &mut Scope,
    k: usize,
    tokens: &'a [Token],
) -> Result<(ParameterList, &'a [Token]), Fault<'a>>
    requires { k < 2 ^ 32 }
    ensures reads { Gives (λ x. (parameters (map parameter_of x.all.nodes.items), x.variadic))
        (spec.parameters_at k (parsers k) scope.old tokens.now) result }
    ensures height { IfOk result (λ x. (x.0.all.height ≡
        parameters_height (parameters (map parameter_of x.0.all.nodes.items)))
        × (x.0.all.height ≤ k)) }
    ensures scope { IfOk result (λ x. scope.new
        ≡ scope.old ++ parameters_add (parameters (map parameter_of x.0.all.nodes.items))) }
{
    match tokens {
        [
            Token {
                body: Body::Mark(Punct::CloseParen),
                ..
            },
            rest @ ..,
        ] => {
            let list = ParameterList {
                all: Parts::new(alloc),
                variadic: false,
            };
            Ok((list, rest))
        }
        _ => {
            let (list, rest) = listed_parameters(alloc, scope, k, tokens)?;
            let rest = expect(rest, Punct::CloseParen)?;
            Ok((list, rest))
        }
    }
}

/// One parameter or more, and whether `, ...` ends them.
#[cycle(reading)]
pub(crate) fn listed_parameters<'a>(
    alloc: Global,
    scope: &mut Scope,
    k: usize,
    tokens: &'a [Token],
) -> Result<(ParameterList, &'a [Token]), Fault<'a>>
    requires { k < 2 ^ 32 }
    ensures reads { Gives (λ x. (map parameter_of x.all.nodes.items, x.variadic))
        (spec.listed_parameters k (parsers k) scope.old tokens.now) result }
    ensures height { IfOk result (λ x. (x.0.all.height ≡
        parameters_height (parameters (map parameter_of x.0.all.nodes.items)))
        × (x.0.all.height ≤ k)) }
    ensures scope { IfOk result (λ x. scope.new
        ≡ scope.old ++ parameters_add (parameters (map parameter_of x.0.all.nodes.items))) }
{
    let mut all = Parts::new(alloc);
    let mut rest = tokens;
    'each: loop {
        let (one, behind) = parameter(alloc, scope, k, rest)?;
        all.push(one)?;
        if !is_mark(behind, Punct::Comma) {
            let list = ParameterList {
                all,
                variadic: false,
            };
            return Ok((list, behind));
        }
        rest = tail(behind);
        if is_mark(rest, Punct::Ellipsis) {
            let list = ParameterList {
                all,
                variadic: true,
            };
            return Ok((list, tail(rest)));
        }
    }
}
