//! Units and what they are answered with.
mod answers;
mod declarations;
mod expressions;
mod limits;
mod printed;
mod programs;
mod refusals;
mod scopes;
mod show;
mod show_unit;
mod statements;
mod word;
