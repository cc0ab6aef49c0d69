//! Pointers.

/// A pointer's value (6.2.5p20): an object and three places in it, counted in bytes from its first. An access has to
/// lie within the bounds, which are those of the array or object that the program named.
#[derive(Clone, Copy, Debug, PartialEq, Eq)]
pub struct Pointer {
    /// The number of the object; 0 is that of a null pointer.
    pub object: u32,
    /// The byte that it points to.
    pub offset: u32,
    /// The first byte within its bounds.
    pub low: u32,
    /// The byte behind its bounds.
    pub high: u32,
}
