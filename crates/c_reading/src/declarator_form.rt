//! Which declarators may stand at a place.

/// Which declarators may stand at a place: those that declare an identifier, those that omit it (6.7.7), or both, as in
/// a parameter declaration (6.7.6.3).
#[derive(Clone, Copy)]
pub enum DeclaratorForm {
    Named,
    Abstract,
    Parameter,
}
