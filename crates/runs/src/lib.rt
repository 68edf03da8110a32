//! Runs: what any list of calls to one pressing comes to, and the laws that hold of every run.

#![tactic(auto)]

pub mod answer;
pub mod fault;
pub mod laws;
pub mod stage;
