//! What an initializer stores, by its typed parts, and which bytes of an object are const (6.6, 6.7.3, 6.7.9).
#![tactic(auto)]

pub mod addresses;
pub mod constants;
pub mod items;
pub mod literals;
pub mod parts;
pub mod seals;
#[cfg(test)]
mod tests;
