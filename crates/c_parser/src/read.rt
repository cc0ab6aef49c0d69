//! How expressions, specifiers and declarators are read.

mod compound;
mod declarator;
mod enumeration;
pub(crate) mod height;
mod infix;
mod member;
mod parameter;
mod parameters;
pub(crate) mod pieces;
mod postfix;
mod qualifier;
pub(crate) mod specifier;
mod suffix;
mod type_name;
mod unary;
mod word;
