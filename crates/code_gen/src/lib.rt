//! What a unit means: from its core tree, its input and its budgets to how its run ends, what it writes, each event of
//! the run, and the ticks that it takes.
#![tactic(auto)]

pub mod laws;
