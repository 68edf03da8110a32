//! Examples of ways, run.

#![tactic(auto)]

#[cfg(test)]
mod rotations;
