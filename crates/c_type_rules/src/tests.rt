//! Tests of what no clause says: lists of words against those of the standard, each call once with memory, and a
//! structure of many members.

mod calls;
mod words;
