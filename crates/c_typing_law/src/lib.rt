//! The laws of typing: what the rules of expressions and of types give is well-typed and well-formed.
#![tactic(auto)]

ghost use Rattle.c_typing_law.specs.Law.{RulesKeepTypes};
ghost use Rattle.c_typing_law.specs.TypesLaw.{TypesStay};

/// Of well-typed parts, over well-formed types and structures, each rule of expressions gives what is well-typed.
pub fn typing_law()
    ensures { RulesKeepTypes }
{}

/// The rules of types make well-formed types, members and structures; and what is well-formed and well-typed stays so
/// as structures and unions are declared and completed, and more can be named.
pub fn types_law()
    ensures { TypesStay }
{}
