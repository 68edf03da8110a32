//! The names of a pressing as edges of a graph, and its clash test, in lists that the caller lends.

#![tactic(auto)]

pub mod build;
pub mod chain;
pub mod clash;
pub mod rows;
