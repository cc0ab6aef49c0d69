//! The syntax of a unit of C (6.5 to 6.9): its tree, the tokens that spell a tree, which trees are well-formed, the one
//! tree or the one refused place of each list of tokens, and a printer of trees.
#![tactic(auto)]

pub mod declaration;
pub mod declarator;
pub mod expression;
pub mod initializer;
pub mod law;
pub mod operator;
mod output;
pub mod specifier;
mod spell_expression;
mod spell_unit;
pub mod spelled;
pub mod statement;
pub mod type_name;
pub mod unit;
mod words;

pub use declaration::{Assert, Declaration, InitDeclarator};
pub use declarator::{Declarator, Parameter};
pub use expression::{Constant, Expr, Literals};
pub use initializer::{Initializer, Item};
pub use law::{first_token_law, height_law, round_trip_law, spelling_law};
pub use operator::{Access, Arithmetic, Comparison, Infix, Measure, Postfix, Prefix};
pub use specifier::{
    BasicWord, CompoundWord, Enumerator, MemberDeclaration, Qualifier, Specifier, Storage, Tag,
};
pub use spell_unit::spelling;
pub use spelled::Spelled;
pub use statement::{BlockItem, ForInit, Statement, SwitchItem};
pub use type_name::TypeName;
pub use unit::{External, Function, Tree};
