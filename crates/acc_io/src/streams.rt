//! The three streams of a run.

/// The three streams of a run, held by value. The calls that take them hand the same three back.
#[derive(Drop)]
pub struct Streams<I, O, E> {
    pub input: I,
    pub out: O,
    pub err: E,
}
