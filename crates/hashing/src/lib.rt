//! Hashing: the generator, the tables drawn from a seed, and the triples of names.

#![tactic(auto)]

pub mod fault;
pub mod laws;
pub mod seed;
pub mod sizes;
pub mod tables;
pub mod triples;
