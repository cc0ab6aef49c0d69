//! The law of the walk: what it answers of expressions, type names, specifiers and declarators is well-typed.
#![tactic(auto)]

ghost use Rattle.c_walk_law.specs.Law.{WalkKeepsTypes};

/// Where what is in scope is typed, what the walk answers of a tree is well-typed and well-formed, what is in scope
/// behind it is typed, and the structures and unions that were there stay (6.2.1, 6.5, 6.7).
pub fn walk_law()
    ensures { WalkKeepsTypes }
{}
