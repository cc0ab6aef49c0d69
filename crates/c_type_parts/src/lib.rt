//! What the parts of a type become, each by its rule: specifiers, tags and bodies, derivations, parameters, enumerators
//! (6.7.2 to 6.7.6).
#![tactic(auto)]

pub mod adding;
pub mod completing;
pub mod derivations;
pub mod enumerating;
pub mod naming;
pub mod outlines;
pub mod parameters;
pub mod tagging;
pub mod words;

pub use naming::{bind_name, new_compound, new_enumeration};
pub use tagging::{
    TagUse, begin_compound, begin_enumeration, declare_compound, tagged_body, tagged_compound,
    tagged_enumeration, tagged_enumerators,
};

#[cfg(test)]
mod tests;
