//! The program that a unit spells.

/// A unit of the one form that is run: calls of `putchar`, and the sum that `main` returns.
#[derive(Drop)]
pub struct Program {
    /// The constant that each call of `putchar` is given, in order.
    pub outputs: Vec<u32>,
    /// The first summand of the returned sum.
    pub first: u32,
    /// The further summands, in order.
    pub rest: Vec<u32>,
}
