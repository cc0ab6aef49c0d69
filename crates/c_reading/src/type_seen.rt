//! Which type specifiers have been read.

/// Whether a type has come: none, basic words, or another that stands alone (6.7.2p2).
#[derive(Clone, Copy)]
pub enum TypeSeen {
    Nothing,
    Basic,
    Other,
}
