//! A node of its parts, and its height.

pub(crate) mod assertion;
pub(crate) mod declaration;
pub(crate) mod declarator;
pub(crate) mod initializer;
pub(crate) mod operator;
pub(crate) mod parameter;
pub(crate) mod primary;
pub(crate) mod specifier;
pub(crate) mod statement;
pub(crate) mod unit;
