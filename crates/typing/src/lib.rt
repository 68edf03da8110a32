//! Text of a works: kinds, names, numbers and settings as people type them.

#![tactic(auto)]

pub mod kinds;
pub mod numbers;
pub mod text;
pub mod typed;
