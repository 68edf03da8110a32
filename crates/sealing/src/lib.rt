//! The string of a plate, written from the work lists of its pressing into lent memory.

#![tactic(auto)]

pub mod write;
