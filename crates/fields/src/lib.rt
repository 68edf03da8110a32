//! The tagged fields of a plate string, written into lent memory.

#![tactic(auto)]

pub mod fault;
pub mod laws;
pub mod write;
