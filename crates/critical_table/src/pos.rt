//! Places in a unit.

/// A place in a unit: the line, and the byte in that line, both counted from 1. A line ends at a line feed.
#[derive(Clone, Copy, Debug, PartialEq, Eq)]
pub struct Pos {
    pub line: u32,
    pub column: u32,
}
