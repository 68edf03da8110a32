//! Examples of heaps, run.

#![tactic(auto)]

#[cfg(test)]
mod heaps;
