//! Presses a whole list of names in one go, and tells what came of it.

#![tactic(auto)]

pub mod bench;
pub mod plate;
pub mod stopped;
