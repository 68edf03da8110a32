//! Ways of trying: a way is a size n and, for each level, the rotations 0 to n - 1 in the order in which they are tried.

#![tactic(auto)]

pub mod fault;
pub mod list;
pub mod stride;
pub mod way;
