//! A member of a structure or union.

use crate::shape::TypeId;
use critical_table::Name;

/// A member of a structure or union: its name, its type, and the byte at which it begins.
#[derive(Debug, Drop)]
pub struct Member {
    pub name: Name,
    pub of: TypeId,
    pub at: u32,
}
