//! Fitting one level of a graph, in the lists that the caller lends to a pressing.

#![tactic(auto)]

mod chain;
pub mod fit;
