//! Kinds of names: the interface, and the two kinds of the works, point names and day cells.

#![tactic(auto)]

pub mod bytes;
pub mod cell;
pub mod fault;
pub mod kind;
pub mod point;
mod shown;
