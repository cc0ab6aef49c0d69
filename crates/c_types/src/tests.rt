//! Tests of what no clause says: layouts against another compiler, hostile types, and each call once with memory.

mod composites;
mod hostile;
mod layouts;
mod queries;
