//! Which type a specifier, a part of a declarator, an enumerator and a list of members stand for, by their typed parts.
#![tactic(auto)]

pub mod arrays;
pub mod context;
pub mod enumerators;
pub mod functions;
pub mod law;
pub mod members;
pub mod qualified;
pub mod settings;
pub mod tags;
pub mod words;

pub use arrays::{array_type, length};
pub use context::{Context, Setting};
pub use enumerators::{enumerator, given_value};
pub use functions::{ParameterList, function_type, parameter_type};
pub use law::order_law;
pub use members::{EndedBody, MemberList, NamedType, complete, content, no_member};
pub use qualified::{pointer_type, qualifiers, restrict};
pub use settings::{inline_word, storage_word};
pub use tags::{compound_body, compound_tag, enumerated_body, enumerated_tag};
pub use words::basic_type;

#[cfg(test)]
mod tests;
