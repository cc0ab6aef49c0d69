//! Structures and unions (6.7.2.1).

ghost use Rattle.std.specs.Prelude.{◌≡◌, map, ◌+◌, ◌^◌, ◌≤◌, ◌<◌, ◌++◌, IfOk};
ghost use Rattle.c_parser.specs.Agree.{Gives};
ghost use Rattle.c_syntax.specs.Height.{specifier_height, members_height};
ghost use Rattle.c_reading.specs.ReadSpecifier as spec;
ghost use Rattle.c_reading.specs.ReadSpecifier.{parsers};
ghost use Rattle.c_syntax.specs.Scopes.{specifier_adds, members_add};
ghost use Rattle.c_syntax.specs.View.{specifier_of, member_of, members};

use crate::begins::begins_type;
use crate::fault::Fault;
use crate::make::specifier;
use crate::next::{expect, is_mark, tail};
use crate::part::{Part, Parts};
use crate::read::height::member;
use crate::scope::Scope;
use c_lexer::{Body, Punct, Token};
use c_syntax::specifier::{CompoundWord, MemberDeclaration, Specifier, Tag};
use critical_table::{Name, Pos};
use std::alloc::Global;

/// What stands behind `struct` or `union`, whose place this is.
#[cycle(reading)]
#[tactic(auto, unfolding(c_reading::specs::ReadSpecifier::compound))]
pub(crate) fn compound<'a>(
    alloc: Global,
    scope: &mut Scope,
    k: usize,
    pos: Pos,
    word: CompoundWord,
    tokens: &'a [Token],
) -> Result<(Part<Specifier>, &'a [Token]), Fault<'a>>
    requires { k < 2 ^ 32 }
    ensures reads { Gives (λ x. specifier_of x.node.value)
        (spec.compound k (parsers k) scope.old pos word tokens.now) result }
    ensures height { IfOk result (λ x. (x.0.height ≡ specifier_height (specifier_of x.0.node.value))
        × (x.0.height ≤ k + 1)) }
    ensures scope { IfOk result (λ x. scope.new ≡ scope.old ++ specifier_adds (specifier_of x.0.node.value)) }
{
    match tokens {
        [
            Token {
                body: Body::Name(name),
                pos: place,
                ..
            },
            rest @ ..,
        ] => {
            let name = Name::new(alloc, name.bytes())?;
            compound_tag(alloc, scope, k, pos, word, Tag { pos: *place, name }, rest)
        }
        [
            Token {
                body: Body::Mark(Punct::OpenBrace),
                ..
            },
            rest @ ..,
        ] => {
            if k == 0 {
                return Err(Fault::TooDeep(tokens));
            }
            compound_body(alloc, scope, k, pos, word, None, rest)
        }
        _ => Err(Fault::Unfit(tokens)),
    }
}

/// A tag was read.
#[cycle(reading)]
#[tactic(auto, unfolding(c_reading::specs::ReadSpecifier::compound_tag))]
fn compound_tag<'a>(
    alloc: Global,
    scope: &mut Scope,
    k: usize,
    pos: Pos,
    word: CompoundWord,
    tag: Tag,
    tokens: &'a [Token],
) -> Result<(Part<Specifier>, &'a [Token]), Fault<'a>>
    requires { k < 2 ^ 32 }
    ensures reads { Gives (λ x. specifier_of x.node.value)
        (spec.compound_tag k (parsers k) scope.old pos word tag tokens.now)
        result }
    ensures height { IfOk result (λ x. (x.0.height ≡ specifier_height (specifier_of x.0.node.value))
        × (x.0.height ≤ k + 1)) }
    ensures scope { IfOk result (λ x. scope.new ≡ scope.old ++ specifier_adds (specifier_of x.0.node.value)) }
{
    if !is_mark(tokens, Punct::OpenBrace) {
        return Ok((specifier::compound_tag(alloc, pos, word, tag)?, tokens));
    }
    if k == 0 {
        return Err(Fault::TooDeep(tokens));
    }
    compound_body(alloc, scope, k, pos, word, Some(tag), tail(tokens))
}

/// What stands behind the opening brace.
#[cycle(reading)]
fn compound_body<'a>(
    alloc: Global,
    scope: &mut Scope,
    k: usize,
    pos: Pos,
    word: CompoundWord,
    tag: Option<Tag>,
    tokens: &'a [Token],
) -> Result<(Part<Specifier>, &'a [Token]), Fault<'a>>
    requires { k < 2 ^ 32 }
    ensures reads { Gives (λ x. specifier_of x.node.value)
        (spec.compound_body k (parsers k) scope.old pos word tag tokens.now) result }
    ensures height { IfOk result (λ x. (x.0.height ≡ specifier_height (specifier_of x.0.node.value))
        × (x.0.height ≤ k + 1)) }
    ensures scope { IfOk result (λ x. scope.new ≡ scope.old ++ specifier_adds (specifier_of x.0.node.value)) }
{
    let (all, rest) = all_members(alloc, scope, k, tokens)?;
    let rest = expect(rest, Punct::CloseBrace)?;
    Ok((specifier::compound(alloc, pos, word, tag, all)?, rest))
}

/// The members, of which there is one at least.
#[cycle(reading)]
fn all_members<'a>(
    alloc: Global,
    scope: &mut Scope,
    k: usize,
    tokens: &'a [Token],
) -> Result<(Parts<MemberDeclaration>, &'a [Token]), Fault<'a>>
    requires { k < 2 ^ 32 }
    ensures reads { Gives (λ x. map member_of x.nodes.items) (spec.all_members k (parsers k) scope.old tokens.now)
        result }
    ensures height { IfOk result (λ x. (x.0.height ≡ members_height (members (map member_of x.0.nodes.items)))
        × (x.0.height ≤ k)) }
    ensures scope { IfOk result (λ x. scope.new ≡ scope.old ++ members_add (members (map member_of x.0.nodes.items))) }
{
    let mut all = Parts::new(alloc);
    let (first, mut rest) = member(alloc, scope, k, tokens)?;
    all.push(first)?;
    'more: while begins_type(scope, rest) {
        let (one, behind) = member(alloc, scope, k, rest)?;
        all.push(one)?;
        rest = behind;
    }
    Ok((all, rest))
}
