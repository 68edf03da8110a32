//! The order of the vertices of a graph, in lists that the caller lends.

#![tactic(auto)]

pub mod order;
mod queue;
