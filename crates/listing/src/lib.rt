//! A works' list of names and settings as people type it: read, hashed, and reported on.

#![tactic(auto)]

mod entries;
pub mod hashed;
mod header;
mod proposal;
pub mod report;
